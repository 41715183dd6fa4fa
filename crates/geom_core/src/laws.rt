//! Laws of edge sums, collapses and limits, as functions without a body: each clause holds for all
//! that it names.

ghost use Rattle.std.specs.Prelude.{◌≡◌, ◌≢◌, ◌<◌, ◌≤◌, ◌⊎◌, ◌↔◌, ◌&&◌, IsTrue, ◌^◌};
ghost use Rattle.std.specs.Prelude.{ℤ, pos, ◌+ℤ◌, neg_ℤ};
ghost use Rattle.std.specs.Prelude.{List, [], ◌∷◌, ◌++◌, length, map, filter, All, Any};
ghost use Rattle.std.specs.List.Sorted.{IsPermutation};
ghost use Rattle.geom_core.specs.declared.limits.TheConstants.{TRIANGLES_PER_CLUSTER, TRIANGLE_BITS};
ghost use Rattle.geom_core.specs.declared.points.Pt.{Pt};
ghost use Rattle.geom_core.specs.declared.triangles.Tri.{Tri};
ghost use Rattle.geom_core.specs.EdgeSum.{edge_sum, is_rim_edge, OnRim};
ghost use Rattle.geom_core.specs.Limits.{has_distinct_corners, IsGridPoint, IsGridTriangle};
ghost use Rattle.geom_core.specs.Corners.{has_corner, IsCornerIn};
ghost use Rattle.geom_core.specs.Collapses.{replaced, collapsed};

/// The sum of a joined list is the sum of the two lists' sums.
pub fn joined_lists_add_edge_sums()
    ensures { (some more : List Tri) (u v : Pt) → edge_sum (some ++ more) u v ≡
        edge_sum some u v +ℤ edge_sum more u v }
{}

/// A triangle with two equal corners adds nothing: its edges cancel.
pub fn equal_corners_cancel()
    ensures first { (t : Tri) (u v : Pt) → t.a ≡ t.b → edge_sum (t ∷ []) u v ≡ pos 0 }
    ensures second { (t : Tri) (u v : Pt) → t.b ≡ t.c → edge_sum (t ∷ []) u v ≡ pos 0 }
    ensures third { (t : Tri) (u v : Pt) → t.c ≡ t.a → edge_sum (t ∷ []) u v ≡ pos 0 }
{}

/// Turning an edge round changes its sum's sign; so the sum from a point to itself is 0.
pub fn turned_edges_change_sign()
    ensures turned { (tris : List Tri) (u v : Pt) → edge_sum tris v u ≡ neg_ℤ (edge_sum tris u v) }
    ensures same { (tris : List Tri) (u : Pt) → edge_sum tris u u ≡ pos 0 }
{}

/// The order of the triangles doesn't matter.
pub fn moved_triangles_keep_edge_sums()
    ensures { (tris moved : List Tri) (u v : Pt) → IsPermutation tris moved →
        edge_sum moved u v ≡ edge_sum tris u v }
{}

/// Replacing the point a by another point b leaves no sum at a. The sum between b and a third point
/// is then the sum of the two that were between b, or a, and that point. All other sums stay.
pub fn replacing_moves_edge_sums()
    ensures from_replaced { (a b v : Pt) (tris : List Tri) → a ≢ b →
        edge_sum (map (replaced a b) tris) a v ≡ pos 0 }
    ensures to_replaced { (a b u : Pt) (tris : List Tri) → a ≢ b →
        edge_sum (map (replaced a b) tris) u a ≡ pos 0 }
    ensures from_target { (a b v : Pt) (tris : List Tri) → a ≢ b → v ≢ a → v ≢ b →
        edge_sum (map (replaced a b) tris) b v ≡ edge_sum tris b v +ℤ edge_sum tris a v }
    ensures to_target { (a b u : Pt) (tris : List Tri) → a ≢ b → u ≢ a → u ≢ b →
        edge_sum (map (replaced a b) tris) u b ≡ edge_sum tris u b +ℤ edge_sum tris u a }
    ensures target_itself { (a b : Pt) (tris : List Tri) →
        edge_sum (map (replaced a b) tris) b b ≡ pos 0 }
    ensures elsewhere { (a b u v : Pt) (tris : List Tri) → u ≢ a → u ≢ b → v ≢ a → v ≢ b →
        edge_sum (map (replaced a b) tris) u v ≡ edge_sum tris u v }
{}

/// Leaving out the triangles with two equal corners changes no sum.
pub fn flat_triangles_add_nothing()
    ensures { (tris : List Tri) (u v : Pt) →
        edge_sum (filter has_distinct_corners tris) u v ≡ edge_sum tris u v }
{}

/// A collapse of a point that isn't on the rim changes no sum, and so neither the edges nor the
/// points of the rim.
pub fn collapses_keep_edge_sums()
    ensures sums { (a b u v : Pt) (tris : List Tri) → (OnRim tris a → ⊥) →
        edge_sum (collapsed a b tris) u v ≡ edge_sum tris u v }
    ensures rim_edges { (a b u v : Pt) (tris : List Tri) → (OnRim tris a → ⊥) →
        is_rim_edge (collapsed a b tris) u v ≡ is_rim_edge tris u v }
    ensures rim_points { (a b p : Pt) (tris : List Tri) → (OnRim tris a → ⊥) →
        (OnRim (collapsed a b tris) p ↔ OnRim tris p) }
{}

/// A collapse of a to b adds no corner but b, and if they differ leaves none at a.
pub fn collapses_move_one_corner()
    ensures only_target { (a b p : Pt) (tris : List Tri) → IsCornerIn (collapsed a b tris) p →
        (p ≡ b) ⊎ IsCornerIn tris p }
    ensures replaced_corner { (a b : Pt) (tris : List Tri) → a ≢ b →
        IsCornerIn (collapsed a b tris) a → ⊥ }
{}

/// A collapse leaves no more triangles than there were, and fewer if some triangle has both points
/// as corners, as along an edge.
pub fn collapses_leave_fewer_triangles()
    ensures at_most { (a b : Pt) (tris : List Tri) → length (collapsed a b tris) ≤ length tris }
    ensures fewer { (a b : Pt) (tris : List Tri) → a ≢ b →
        Any (λ t. IsTrue (has_corner a t && has_corner b t)) tris →
        length (collapsed a b tris) < length tris }
{}

/// Triangles of a mesh collapse to triangles of a mesh, if the target is a point of a mesh, as each
/// corner of these triangles is.
pub fn collapses_keep_grid_triangles()
    ensures collapsed { (a b : Pt) (tris : List Tri) → IsGridPoint b → All IsGridTriangle tris →
        All IsGridTriangle (collapsed a b tris) }
    ensures corner { (p : Pt) (tris : List Tri) → IsCornerIn tris p → All IsGridTriangle tris →
        IsGridPoint p }
{}

/// The lowest `TRIANGLE_BITS` bits of a picture's word number the triangles of a cluster.
pub fn triangle_bits_number_a_cluster()
    ensures { 2 ^ TRIANGLE_BITS ≡ TRIANGLES_PER_CLUSTER }
{}
