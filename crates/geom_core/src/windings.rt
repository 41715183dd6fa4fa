ghost use Rattle.std.specs.Prelude.{◌≢◌, ℤ, pos};
ghost use Rattle.geom_core.specs.declared.screens.Spot.{Spot};
ghost use Rattle.geom_core.specs.Winding.{winding};
ghost use Rattle.geom_core.specs.Depth.{divisor};

/// Interpolating a depth never divides by 0: a triangle that winds round a point has an area.
///
/// The divisor is twice the triangle's signed area, so it is the same at each point that the triangle covers.
#[tactic(auto, using(crate::proofs::DivisorLaws::divisor_nonzero))]
pub fn divisor_is_not_zero()
    ensures { (a b c : Spot) (x y : ℤ) → winding a b c x y ≢ pos 0 → divisor a b c x y ≢ pos 0 }
{}
