//! Laws of distances and boxes, as functions without a body: each clause holds for all values that it names.

ghost use Rattle.std.specs.Prelude.{◌≡◌, ◌+◌, ◌≤◌, All, IfSome, IsTrue, List};
ghost use Rattle.geom_core.specs.declared.boxes.Cube.{Cube};
ghost use Rattle.geom_core.specs.declared.points.Pt.{Pt};
ghost use Rattle.geom_core.specs.declared.triangles.Tri.{Tri};
ghost use Rattle.geom_core.specs.Boxes.{holds_box, holds_point, hull_of, is_under, join_of};
ghost use Rattle.geom_core.specs.Distance.{box_distance, distance};
ghost use Rattle.geom_core.specs.Shift.{shift_of};

/// The Chebyshev distance is a metric: 0 exactly between equal points, symmetric, and never shortened by a detour.
pub fn distance_is_a_metric()
    ensures zero { (p : Pt) → distance p p ≡ 0 }
    ensures equal { (p q : Pt) → distance p q ≡ 0 → p ≡ q }
    ensures symmetric { (p q : Pt) → distance p q ≡ distance q p }
    ensures triangle { (p q r : Pt) → distance p r ≤ distance p q + distance q r }
{}

/// Shifts are bounded by their sum: a triangle moved twice is moved by at most both shifts together.
pub fn shifts_add_up()
    ensures zero { (t : Tri) → shift_of t t ≡ 0 }
    ensures triangle { (t u v : Tri) → shift_of t v ≤ shift_of t u + shift_of u v }
{}

/// Containment is reflexive and transitive, and a box holds the points of each box that it holds.
pub fn boxes_in_boxes()
    ensures itself { (box : Cube) → IsTrue (holds_box box box) }
    ensures chain { (a b c : Cube) → IsTrue (holds_box a b) → IsTrue (holds_box b c) →
        IsTrue (holds_box a c) }
    ensures points { (outer inner : Cube) (p : Pt) → IsTrue (holds_box outer inner) →
        IsTrue (holds_point inner p) → IsTrue (holds_point outer p) }
{}

/// A join is the smallest box that holds both. Its corners are in order if those of the first box are.
pub fn joins_are_least_boxes()
    ensures first { (a b : Cube) → IsTrue (holds_box (join_of a b) a) }
    ensures second { (a b : Cube) → IsTrue (holds_box (join_of a b) b) }
    ensures least { (a b outer : Cube) → IsTrue (holds_box outer a) → IsTrue (holds_box outer b) →
        IsTrue (holds_box outer (join_of a b)) }
    ensures corners { (a b : Cube) → IsTrue (is_under a.lo a.hi) →
        IsTrue (is_under (join_of a b).lo (join_of a b).hi) }
{}

/// A hull is the smallest box that holds the points, and its corners are in order.
pub fn hulls_are_least_boxes()
    ensures each { (points : List Pt) →
        IfSome (hull_of points) (λ box. All (λ p. IsTrue (holds_point box p)) points) }
    ensures least { (points : List Pt) (outer : Cube) →
        All (λ p. IsTrue (holds_point outer p)) points →
        IfSome (hull_of points) (λ box. IsTrue (holds_box outer box)) }
    ensures corners { (points : List Pt) →
        IfSome (hull_of points) (λ box. IsTrue (is_under box.lo box.hi)) }
{}

/// The distance from a box is that from its nearest point, if there is a point in the box.
pub fn box_distance_is_from_the_nearest_point()
    ensures least { (box : Cube) (p q : Pt) → IsTrue (holds_point box q) →
        box_distance box p ≤ distance q p }
    ensures reached { (box : Cube) (p : Pt) → IsTrue (is_under box.lo box.hi) →
        (q : Pt) × IsTrue (holds_point box q) × (distance q p ≡ box_distance box p) }
    ensures zero { (box : Cube) (p : Pt) → IsTrue (holds_point box p) → box_distance box p ≡ 0 }
{}

/// Of two boxes, the one that holds the other is no further from any point. The inner box's corners must be in
/// order; the outer one's then are too.
pub fn outer_boxes_are_no_further()
    ensures { (outer inner : Cube) (p : Pt) → IsTrue (is_under inner.lo inner.hi) →
        IsTrue (holds_box outer inner) → box_distance outer p ≤ box_distance inner p }
{}
