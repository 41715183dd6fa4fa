ghost use Rattle.std.specs.Prelude.{◌≡◌, ◌+◌, ◌*◌, ◌/◌, ◌≤◌, ◌≤ℤ◌, ◌*ℤ◌, pos, true, unsigned_abs};
ghost use Rattle.geom_core.specs.declared.limits.TheConstants.{MAX_DOT, MAX_FOCAL, MAX_NEAR, MAX_SIDE};
ghost use Rattle.geom_core.specs.declared.limits.TheConstants.{MAX_SCREEN_COORDINATE, MIN_NEAR, SUBPIXELS};
ghost use Rattle.geom_core.specs.Camera.{on_screen, reversed_depth};
ghost use Rattle.geom_core.specs.Floor.{floor_div};
ghost use Rattle.geom_core.specs.Limits.{IsDepth};
ghost use Rattle.view_camera.specs.Internal.Projections.{IsViewAxis, screen_coordinate};
ghost use Rattle.view_camera.specs.Internal.Projections.{IsBeforeFirstCentre, IsAfterLastCentre, AreOffOneSide};

use geom_core::limits::{MAX_DEPTH, SUBPIXELS};

/// Half a pixel: the distance of a pixel's centre from its edges, in sixteenths of a pixel.
const HALF_PIXEL: i64 = SUBPIXELS as i64 / 2;

/// A view-space point along one side of the picture, in grid steps times `ROTATION_ONE`.
#[derive(Clone, Copy)]
pub(crate) struct ViewAxis {
    /// The distance from the camera's axis, to the right or down.
    pub(crate) offset: i64,
    /// The distance ahead of the eye.
    pub(crate) depth: i64,
}

/// Returns half a side of the picture, in sixteenths of a pixel.
pub(crate) fn half_side(side: u32) -> i64
    requires { side ≤ MAX_SIDE }
    ensures { result ≡ pos (SUBPIXELS / 2 * side) }
{
    HALF_PIXEL * i64::from(side)
}

/// Returns the distance from the picture's middle at which an offset is seen, in sixteenths of a pixel,
/// rounded down.
pub(crate) fn project_axis(focal: u32, offset: i64, depth: i64) -> i64
    requires focal { focal ≤ MAX_FOCAL }
    requires offset { unsigned_abs offset ≤ MAX_DOT }
    requires depth { pos MIN_NEAR ≤ℤ depth }
    ensures coordinate { result ≡ on_screen focal offset depth }
    ensures coordinate_limit { unsigned_abs result + SUBPIXELS / 2 * MAX_SIDE ≤ MAX_SCREEN_COORDINATE }
{
    floor_div(scaled(focal, offset), depth)
}

/// Returns the quotient rounded down, also below 0.
#[tactic(auto, using(crate::proofs::Bounds::floor_div_positive))]
fn floor_div(number: i64, divisor: i64) -> i64
    requires { pos MIN_NEAR ≤ℤ divisor }
    ensures { result ≡ floor_div number divisor }
{
    number.div_euclid(divisor)
}

/// Returns the reversed depth: `MAX_DEPTH` at the near plane, falling towards 0 with distance.
pub(crate) fn reversed_depth(near: u64, depth: i64) -> u32
    requires near_least { MIN_NEAR ≤ near }
    requires near_limit { near ≤ MAX_NEAR }
    requires beyond { pos near ≤ℤ depth }
    requires depth_limit { unsigned_abs depth ≤ MAX_DOT }
    ensures reversed { result ≡ reversed_depth near depth }
    ensures depth_range { IsDepth result }
{
    (near * u64::from(MAX_DEPTH) / depth as u64) as u32
}

/// Returns an offset times the focal length in sixteenths of a pixel.
fn scaled(focal: u32, offset: i64) -> i64
    requires focal { focal ≤ MAX_FOCAL }
    requires offset { unsigned_abs offset ≤ MAX_DOT }
    ensures product { result ≡ pos (SUBPIXELS * focal) *ℤ offset }
    ensures product_limit { unsigned_abs result ≤ SUBPIXELS * MAX_FOCAL * MAX_DOT }
{
    i64::from(SUBPIXELS) * i64::from(focal) * offset
}

/// Returns a distance on the screen times a depth.
fn times(distance: i64, depth: i64) -> i64
    requires distance { unsigned_abs distance ≤ SUBPIXELS / 2 * MAX_SIDE }
    requires depth { unsigned_abs depth ≤ MAX_DOT }
    ensures { result ≡ distance *ℤ depth }
{
    distance * depth
}

/// Whether a point is seen at the first pixel centre of a side, or before it.
fn is_before_first_centre(focal: u32, side: u32, at: ViewAxis) -> bool
    requires focal { focal ≤ MAX_FOCAL }
    requires side_limit { side ≤ MAX_SIDE }
    requires view_axis { IsViewAxis at }
    ensures { result ≡ true → IsBeforeFirstCentre side (screen_coordinate focal side at) }
{
    scaled(focal, at.offset) < times(HALF_PIXEL + 1 - half_side(side), at.depth)
}

/// Whether a point is seen after the last pixel centre of a side.
fn is_after_last_centre(focal: u32, side: u32, at: ViewAxis) -> bool
    requires focal { focal ≤ MAX_FOCAL }
    requires side_limit { side ≤ MAX_SIDE }
    requires view_axis { IsViewAxis at }
    ensures { result ≡ true → IsAfterLastCentre side (screen_coordinate focal side at) }
{
    times(half_side(side) - HALF_PIXEL + 1, at.depth) <= scaled(focal, at.offset)
}

/// Whether three points are all seen before the first pixel centre of a side, or all after the last.
pub(crate) fn all_off_one_side(focal: u32, side: u32, a: ViewAxis, b: ViewAxis, c: ViewAxis) -> bool
    requires focal { focal ≤ MAX_FOCAL }
    requires side_limit { side ≤ MAX_SIDE }
    requires view_axes { IsViewAxis a × IsViewAxis b × IsViewAxis c }
    ensures { result ≡ true → AreOffOneSide side (screen_coordinate focal side a)
        (screen_coordinate focal side b) (screen_coordinate focal side c) }
{
    if is_before_first_centre(focal, side, a) {
        is_before_first_centre(focal, side, b) && is_before_first_centre(focal, side, c)
    } else {
        is_after_last_centre(focal, side, a)
            && is_after_last_centre(focal, side, b)
            && is_after_last_centre(focal, side, c)
    }
}
