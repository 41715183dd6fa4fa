ghost use Rattle.std.specs.Prelude.{◌≢◌, ◌↔◌, IsTrue, ℤ, pos};
ghost use Rattle.geom_core.specs.declared.screens.Spot.{Spot};
ghost use Rattle.geom_core.specs.Winding.{winding};
ghost use Rattle.raster64.specs.Sides.{AreOpposite, IsInBox};
ghost use Rattle.raster64.specs.Span.{is_in_span};

/// At each height a triangle covers one half-open span: the points from the lesser crossing column of the two
/// edges that span the height, and before the greater one; and no point where no edge spans the height.
#[tactic(auto, using(crate::proofs::SpanLaws::rows_are_spans))]
pub fn rows_are_spans()
    ensures { (a b c : Spot) (x y : ℤ) → (winding a b c x y ≢ pos 0)
        ↔ IsTrue (is_in_span a b c x y) }
{}

/// Two triangles that share an edge and lie on its two sides share no pixel: no point has both windings not 0.
///
/// Nothing is said of two triangles on the same side of the edge.
pub fn shared_edge_is_drawn_once()
    ensures { (a b c d : Spot) (x y : ℤ) → AreOpposite a b c d → winding a b c x y ≢ pos 0
        → winding b a d x y ≢ pos 0 → ⊥ }
{}

/// A triangle covers only points of its box, from the least coordinates of its corners on and before the greatest.
#[tactic(auto, using(crate::proofs::SharedEdgeLaws::covered_in_box))]
pub fn covered_points_are_in_the_box()
    ensures { (a b c : Spot) (x y : ℤ) → winding a b c x y ≢ pos 0 → IsInBox a b c x y }
{}
