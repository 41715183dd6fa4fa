ghost use Rattle.std.specs.Prelude.{◌≡◌, ◌≤◌, true, unsigned_abs};
ghost use Rattle.raster64.specs.Internal.Numerators.{IsWithin};
ghost use Rattle.raster64.specs.declared.reach.TheConstants.{NEAR_COORDINATE};

use geom_core::Spot;
use geom_core::limits::{MAX_SIDE, SUBPIXELS};

/// Greatest distance from 0 of a coordinate near the picture, in sixteenths of a pixel: twice the widest picture.
/// The weighted sum of depths of a triangle whose corners are near fits an `i64`.
pub(crate) const NEAR_COORDINATE: u32 = 2 * SUBPIXELS * MAX_SIDE;

/// Whether a coordinate is near the picture.
fn is_near_coordinate(v: i64) -> bool
    ensures within { result ≡ true → unsigned_abs v ≤ NEAR_COORDINATE }
    ensures near { unsigned_abs v ≤ NEAR_COORDINATE → result ≡ true }
{
    let near = i64::from(NEAR_COORDINATE);
    -near <= v && v <= near
}

/// Whether both coordinates of the spot are near the picture.
fn is_near(s: Spot) -> bool
    ensures within { result ≡ true → IsWithin NEAR_COORDINATE s }
    ensures near { IsWithin NEAR_COORDINATE s → result ≡ true }
{
    is_near_coordinate(s.x) && is_near_coordinate(s.y)
}

/// Whether the three spots are near the picture.
pub(crate) fn are_near(a: Spot, b: Spot, c: Spot) -> bool
    ensures within { result ≡ true
        → IsWithin NEAR_COORDINATE a × IsWithin NEAR_COORDINATE b × IsWithin NEAR_COORDINATE c }
    ensures near { IsWithin NEAR_COORDINATE a → IsWithin NEAR_COORDINATE b
        → IsWithin NEAR_COORDINATE c → result ≡ true }
{
    is_near(a) && is_near(b) && is_near(c)
}
