ghost use Rattle.std.specs.Prelude.{◌≡◌, ◌*◌, ◌<◌, ◌^◌};
ghost use Rattle.geom_core.specs.declared.limits.TheConstants.{SUBPIXELS};
ghost use Rattle.dag_core.specs.Coarse.{is_coarse};

use crate::groups::Group;
use geom_core::Lens;
use geom_core::limits::SUBPIXELS;

/// Whether a group's error is greater, as the lens sees it, than the tolerance: `error / distance * focal` pixels,
/// with the distance from the group's box to the eye, and 1 at least. Then its members are drawn in place of the
/// clusters that it made. It is exact for every lens, and an error of just the tolerance is not coarse.
#[tactic(auto, unfolding(crate::specs::Coarse::is_coarse))]
pub fn coarse(g: &Group, lens: &Lens) -> bool
    ensures coarse { result ≡ is_coarse g.now.error g.now.cube lens.now }
{
    let distance = 1.max(g.cube.distance_to(lens.eye));
    seen_error(g.error, lens.focal) > product(lens.tolerance, distance)
}

/// Returns the error times the focal length, in grid steps times sixteenths of a pixel.
fn seen_error(error: u32, focal: u32) -> u128
    ensures error { result ≡ error * focal * SUBPIXELS }
{
    product(error, focal) * u128::from(SUBPIXELS)
}

/// Returns the product of two numbers below 2^32.
fn product(a: u32, b: u32) -> u128
    ensures product { result ≡ a * b }
    ensures product_limit { result < 2 ^ 64 }
{
    u128::from(a) * u128::from(b)
}
