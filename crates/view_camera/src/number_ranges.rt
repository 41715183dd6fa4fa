ghost use Rattle.std.specs.Prelude.{◌≡◌};
ghost use Rattle.view_camera.specs.CameraNumbers.{first_outside, is_outside};

use geom_core::limits::{MAX_EYE, MAX_FOCAL, MAX_NEAR, MAX_TOLERANCE, MIN_NEAR, ROTATION_ONE};

/// The range of one of a camera's numbers.
#[derive(Clone, Copy, Debug, PartialEq, Eq)]
pub struct NumberRange {
    /// The least value.
    pub least: i64,
    /// The greatest value.
    pub greatest: i64,
}

/// The range of the eye's position on each axis, in grid steps.
const EYE_RANGE: NumberRange = NumberRange {
    least: -(MAX_EYE as i64),
    greatest: MAX_EYE as i64,
};

/// The range of an entry of the rotation, in 1/`ROTATION_ONE`.
const ROTATION_RANGE: NumberRange = NumberRange {
    least: -(ROTATION_ONE as i64),
    greatest: ROTATION_ONE as i64,
};

/// The range of each of a camera's numbers, in the order of `Camera::new`.
pub const CAMERA_RANGES: [NumberRange; 15] = [
    NumberRange {
        least: 1,
        greatest: MAX_FOCAL as i64,
    },
    NumberRange {
        least: MIN_NEAR as i64,
        greatest: MAX_NEAR as i64,
    },
    NumberRange {
        least: 0,
        greatest: MAX_TOLERANCE as i64,
    },
    EYE_RANGE,
    EYE_RANGE,
    EYE_RANGE,
    ROTATION_RANGE,
    ROTATION_RANGE,
    ROTATION_RANGE,
    ROTATION_RANGE,
    ROTATION_RANGE,
    ROTATION_RANGE,
    ROTATION_RANGE,
    ROTATION_RANGE,
    ROTATION_RANGE,
];

/// Returns the index of the first of a camera's numbers that is out of its range.
pub fn first_out_of_range(ranges: &[NumberRange; 15], numbers: &[i64; 15]) -> Option<u8>
    ensures { result ≡ first_outside 0 ranges.now numbers.now }
{
    for (field, number) in numbers.iter().enumerate() {
        if is_outside(ranges[field], *number) {
            return Some(field as u8);
        }
    }
    None
}

/// Whether a number is below the range or above it.
fn is_outside(range: NumberRange, number: i64) -> bool
    ensures { result ≡ is_outside range number }
{
    number < range.least || range.greatest < number
}
