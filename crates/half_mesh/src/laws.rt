//! Laws of rims: public functions without a body, whose clauses callers' proofs cite.
ghost use Rattle.std.specs.Prelude.{◌≡◌, ◌≤◌, ◌↔◌, List, length, All, Contains};
ghost use Rattle.geom_core.specs.declared.limits.TheConstants.{MAX_SUMMED_TRIANGLES};
ghost use Rattle.geom_core.specs.declared.points.Pt.{Pt};
ghost use Rattle.geom_core.specs.declared.triangles.Tri.{Tri};
ghost use Rattle.geom_core.specs.Corners.{IsCornerIn};
ghost use Rattle.geom_core.specs.EdgeSum.{edge_sum, OnRim};
ghost use Rattle.geom_core.specs.Limits.{HasGridCorners, IsGridPoint};
ghost use Rattle.half_mesh.specs.Rim.{EdgeSums, IsRimOf, AreRimsOf, HaveSmallSums, all_of, ends_of};

/// A law: two lists have the same rim exactly if their sums agree at all pairs of points.
pub fn rims_are_determined()
    ensures { (tris others : List Tri) (rim other : EdgeSums) → IsRimOf tris rim.edges rim.sums →
        IsRimOf others other.edges other.sums →
        rim ≡ other ↔ ((u v : Pt) → edge_sum tris u v ≡ edge_sum others u v) }
{}

/// A law: the ends of a rim's edges are the points on the rim.
pub fn ends_are_on_rim()
    ensures { (tris : List Tri) (rim : EdgeSums) → IsRimOf tris rim.edges rim.sums →
        (p : Pt) → Contains (ends_of rim.edges) p ↔ OnRim tris p }
{}

/// A law: each end of a rim's edges is a corner of one of the triangles.
pub fn ends_are_corners()
    ensures { (tris : List Tri) (rim : EdgeSums) → IsRimOf tris rim.edges rim.sums →
        All (IsCornerIn tris) (ends_of rim.edges) }
{}

/// A law: where all corners of the triangles are points of a mesh, so are the ends of the rim's edges.
pub fn ends_are_grid_points()
    ensures { (tris : List Tri) (rim : EdgeSums) → IsRimOf tris rim.edges rim.sums →
        All HasGridCorners tris → All IsGridPoint (ends_of rim.edges) }
{}

/// A law: the rims of lists with together at most `MAX_SUMMED_TRIANGLES` triangles have small sums, so that they can be
/// joined.
pub fn few_have_small_sums()
    ensures { (lists : List (List Tri)) (rims : List EdgeSums) → AreRimsOf lists rims →
        length (all_of lists) ≤ MAX_SUMMED_TRIANGLES → HaveSmallSums rims }
{}
