//! The laws of grown orders and their batches, as functions without a body. Each clause holds for all items,
//! keys and neighbours.

ghost use Rattle.std.specs.Prelude.{◌≡◌, ◌<◌, ◌≤◌, Bool, true, ℕ, List, [], length, All};
ghost use Rattle.std.specs.List.{concat, flat_map, range_with_len};
ghost use Rattle.std.specs.List.Sorted.{IsPermutation};
ghost use Rattle.geom_core.specs.declared.limits.TheConstants.{TRIANGLES_PER_CLUSTER, CLUSTERS_PER_GROUP};
ghost use Rattle.geom_core.specs.declared.points.Pt.{Pt};
ghost use Rattle.geom_core.specs.declared.triangles.Tri.{Tri};
ghost use Rattle.partition.specs.declared.shapes.ClusterShape.{ClusterShape};
ghost use Rattle.partition.specs.Batches.{AreBatches, AreFullButLast, pick};
ghost use Rattle.partition.specs.Clusters.{AreClusters};
ghost use Rattle.partition.specs.Groups.{AreGroups};
ghost use Rattle.partition.specs.Growing.{batches_of, is_grown};
ghost use Rattle.partition.specs.OneBatch.{IsInOneBatch};

/// There is exactly one grown order: the rule determines it.
pub fn one_order_grows()
    ensures exists { (n size : ℕ) (key : ℕ → ℕ) (near : ℕ → ℕ → Bool) →
        (order : List ℕ) × (is_grown n key near size order ≡ true) }
    ensures unique { (n size : ℕ) (key : ℕ → ℕ) (near : ℕ → ℕ → Bool) (order other : List ℕ) →
        is_grown n key near size order ≡ true → is_grown n key near size other ≡ true →
        order ≡ other }
{}

/// A grown order has each number below n once, and nothing else.
pub fn grown_orders_are_permutations()
    ensures { (n size : ℕ) (key : ℕ → ℕ) (near : ℕ → ℕ → Bool) (order : List ℕ) →
        is_grown n key near size order ≡ true → IsPermutation (range_with_len 0 n) order }
{}

/// Items have exactly one list of batches: the rule determines it.
pub fn one_list_of_batches()
    ensures exists { (keys : List ℕ) (edges : List (List (Pt × Pt))) (size : ℕ) → 0 < size →
        (batches : List (List ℕ)) × AreBatches keys edges size batches }
    ensures unique { (keys : List ℕ) (edges : List (List (Pt × Pt))) (size : ℕ)
        (batches other : List (List ℕ)) → AreBatches keys edges size batches →
        AreBatches keys edges size other → batches ≡ other }
{}

/// Each batch but the last is full, and the last one has an item. So there are no more batches than items.
pub fn batches_are_full_but_the_last()
    ensures joined { (size : ℕ) (order : List ℕ) → 0 < size →
        concat (batches_of size order) ≡ order }
    ensures full_of_order { (size : ℕ) (order : List ℕ) → 0 < size →
        AreFullButLast size (length order) (batches_of size order) }
    ensures full_of_items { (keys : List ℕ) (edges : List (List (Pt × Pt))) (size : ℕ)
        (batches : List (List ℕ)) → 0 < size → AreBatches keys edges size batches →
        AreFullButLast size (length keys) batches }
    ensures batch_limit { (size total : ℕ) (batches : List (List ℕ)) → 0 < size →
        AreFullButLast size total batches → length batches ≤ total }
{}

/// Each item is in exactly one batch, and nothing else is in one.
pub fn each_item_is_in_one_batch()
    ensures permutation { (keys : List ℕ) (edges : List (List (Pt × Pt))) (size : ℕ)
        (batches : List (List ℕ)) → AreBatches keys edges size batches →
        IsPermutation (range_with_len 0 (length keys)) (concat batches) }
    ensures number_range { (keys : List ℕ) (edges : List (List (Pt × Pt))) (size : ℕ)
        (batches : List (List ℕ)) → AreBatches keys edges size batches →
        All (λ batch. All (λ number. number < length keys) batch) batches }
    ensures one_batch { (n size : ℕ) (key : ℕ → ℕ) (near : ℕ → ℕ → Bool) (order : List ℕ) →
        0 < size → is_grown n key near size order ≡ true →
        (item : ℕ) → item < n → IsInOneBatch (batches_of size order) item }
{}

/// What the batches pick of a list, joined, is the list in another order; so it is of joined lists.
pub fn batches_pick_each_item_once<T>()
    ensures items { (keys : List ℕ) (edges : List (List (Pt × Pt))) (size : ℕ)
        (batches : List (List ℕ)) (items : List T) (other : T) →
        AreBatches keys edges size batches → length items ≡ length keys →
        IsPermutation items (flat_map (pick items other) batches) }
    ensures lists { (keys : List ℕ) (edges : List (List (Pt × Pt))) (size : ℕ)
        (batches : List (List ℕ)) (lists : List (List T)) →
        AreBatches keys edges size batches → length lists ≡ length keys →
        IsPermutation (flat_map (λ list. list) lists)
        (flat_map (λ batch. flat_map (λ list. list) (pick lists [] batch)) batches) }
{}

/// The triangles of the clusters, joined, are those of the list in another order. Each cluster but the last is
/// full, and the last one has a triangle.
pub fn clusters_have_each_triangle_once()
    ensures triangles { (tris : List Tri) (clusters : List (List ℕ)) (other : Tri) →
        AreClusters tris clusters → IsPermutation tris (flat_map (pick tris other) clusters) }
    ensures number_range { (tris : List Tri) (clusters : List (List ℕ)) →
        AreClusters tris clusters →
        All (λ cluster. All (λ number. number < length tris) cluster) clusters }
    ensures full { (tris : List Tri) (clusters : List (List ℕ)) → AreClusters tris clusters →
        AreFullButLast TRIANGLES_PER_CLUSTER (length tris) clusters }
{}

/// What the groups have of a level's clusters, joined, is all of it in another order, whatever list each cluster
/// has. Each group but the last is full, and the last one has a cluster.
pub fn groups_have_each_cluster_once<T>()
    ensures lists { (shapes : List ClusterShape) (groups : List (List ℕ)) (lists : List (List T)) →
        AreGroups shapes groups → length lists ≡ length shapes →
        IsPermutation (flat_map (λ list. list) lists)
        (flat_map (λ group. flat_map (λ list. list) (pick lists [] group)) groups) }
    ensures number_range { (shapes : List ClusterShape) (groups : List (List ℕ)) →
        AreGroups shapes groups →
        All (λ group. All (λ number. number < length shapes) group) groups }
    ensures full { (shapes : List ClusterShape) (groups : List (List ℕ)) → AreGroups shapes groups →
        AreFullButLast CLUSTERS_PER_GROUP (length shapes) groups }
{}
