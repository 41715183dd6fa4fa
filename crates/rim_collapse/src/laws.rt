//! Laws of simplified lists, as functions without a body: each clause holds for all that it names.

ghost use Rattle.std.specs.Prelude.{◌≡◌, IsTrue, List, map, All};
ghost use Rattle.geom_core.specs.declared.points.Pt.{Pt};
ghost use Rattle.geom_core.specs.declared.triangles.Tagged.{Tagged};
ghost use Rattle.geom_core.specs.EdgeSum.{edge_sum, OnRim};
ghost use Rattle.geom_core.specs.Limits.{IsGridTriangle};
ghost use Rattle.geom_core.specs.TaggedLists.{tris_of};
ghost use Rattle.rim_collapse.specs.declared.states.Kept.{Kept};
ghost use Rattle.rim_collapse.specs.Legal.{is_among};
ghost use Rattle.rim_collapse.specs.Moved.{moved_of};
ghost use Rattle.rim_collapse.specs.Simplified.{IsSimplified};
ghost use Rattle.rim_collapse.specs.Sound.{IsSound};
ghost use Rattle.rim_collapse.specs.States.{tagged_of};

/// Law: with given points locked, a list is simplified to at most one state.
pub fn one_simplification()
    ensures { (tris : List Tagged) (locked : List Pt) (kept others : List Kept) →
        IsSimplified tris locked kept → IsSimplified tris locked others → kept ≡ others }
{}

/// Law: where all points on the rim are locked, simplifying changes no edge sum.
pub fn simplified_lists_keep_edge_sums()
    ensures { (tris : List Tagged) (locked : List Pt) (kept : List Kept) →
        IsSimplified tris locked kept →
        ((p : Pt) → OnRim (tris_of tris) p → IsTrue (is_among locked p)) → (u v : Pt) →
        edge_sum (tris_of (map tagged_of kept)) u v ≡ edge_sum (tris_of tris) u v }
{}

/// Law: a list of triangles of a mesh is simplified to some of them, in their order, each of whose corners is a
/// corner of the list and within the stated distance of its old place.
pub fn simplified_lists_are_sound()
    ensures { (tris : List Tagged) (locked : List Pt) (kept : List Kept) →
        All IsGridTriangle (tris_of tris) → IsSimplified tris locked kept →
        IsSound tris (map tagged_of kept) (moved_of kept) }
{}
