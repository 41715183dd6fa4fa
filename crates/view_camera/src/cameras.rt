ghost use Rattle.std.specs.Prelude.{◌≡◌, ◌<◌, ◌≤◌, ℕ, true, [], unsigned_abs, IfSome, option_map};
ghost use Rattle.geom_core.specs.declared.limits.TheConstants.{ROTATION_ONE};
ghost use Rattle.geom_core.specs.Camera.{spot_of};
ghost use Rattle.geom_core.specs.Coverage.{words_of};
ghost use Rattle.geom_core.specs.Limits.{IsGridPoint, IsPicture, IsSpot};
ghost use Rattle.view_camera.specs.CameraNumbers.{first_bad, view_of_numbers, number_at, direction_at};
ghost use Rattle.view_camera.specs.Internal.RotationRows.{direction_of};
ghost use Rattle.view_camera.specs.ViewPoints.{spot_at, IsBeyondNear};

use crate::number_ranges::{CAMERA_RANGES, first_out_of_range};
use crate::projections::{all_off_one_side, half_side, project_axis, reversed_depth};
use crate::rotation::{RotationRow, dot_from_eye};
use crate::view_points::ViewPoint;
use geom_core::{Lens, Pt, Size, Spot};
use std::marker::Model;

/// The error for numbers that describe no camera.
#[derive(Clone, Copy, Debug, PartialEq, Eq)]
pub struct BadCamera {
    /// The index, from 0, of the first number that is out of its range.
    pub field: u8,
}

/// A pinhole camera over whole numbers: position, rotation, focal length, near plane and error tolerance.
///
/// The three rows are not checked to be a rotation: a picture is defined for any rows, skewed ones too.
#[derive(Clone, Copy, Debug, PartialEq, Eq)]
pub struct Camera {
    focal: u32,
    near: u64,
    tolerance: u32,
    eye: Pt,
    right: RotationRow,
    down: RotationRow,
    forward: RotationRow,
}

impl Model for Camera {
    ghost use Rattle.geom_core.specs.Camera.{View};

    ghost Value = { View };

    ghost use Rattle.view_camera.specs.Internal.CameraFields.{IsCamera, view_of, fields_of};

    ghost view = { view_of };

    ghost invariant = { IsCamera };

    ghost inverse = { fields_of };
}

impl Camera {
    /// Returns the camera that fifteen numbers describe:
    ///
    /// - the focal length in pixels at distance 1, from 1 to `MAX_FOCAL`;
    /// - the near-plane distance in grid steps times `ROTATION_ONE`, from `MIN_NEAR` to `MAX_NEAR`;
    /// - the error tolerance in sixteenths of a pixel, from 0 to `MAX_TOLERANCE`;
    /// - the eye's x, y and z in grid steps, each from `-MAX_EYE` to `MAX_EYE`;
    /// - the rotation's rows right, down and forward, each entry from `-ROTATION_ONE` to `ROTATION_ONE`.
    ///
    /// If a number is out of its range, the error says which number is the first.
    #[tactic(auto, unfolding(crate::specs::CameraNumbers::first_bad))]
    pub fn new(numbers: [i64; 15]) -> Result<Camera, BadCamera>
        ensures camera { first_bad numbers ≡ None → result ≡ Ok (view_of_numbers numbers) }
        ensures bad_camera { IfSome (first_bad numbers)
            (λ field. result ≡ Err (record { field = field })) }
    {
        match first_out_of_range(&CAMERA_RANGES, &numbers) {
            Some(field) => Err(BadCamera { field }),
            None => Ok(from_numbers(&numbers)),
        }
    }

    /// Returns what a level of detail is chosen by: the eye, the focal length and the tolerance.
    pub fn lens(&self) -> Lens
        ensures { result ≡ record {
          eye = self.now.eye;
          focal = self.now.focal;
          tolerance = self.now.tolerance;
        } }
    {
        Lens {
            eye: self.eye,
            focal: self.focal,
            tolerance: self.tolerance,
        }
    }

    /// Returns the screen position and depth of a mesh point in a picture of this size, if the point is no
    /// nearer than the near plane.
    pub fn screen(&self, size: Size, p: Pt) -> Option<Spot>
        requires picture { IsPicture size }
        requires grid_point { IsGridPoint p }
        ensures spot { result ≡ spot_of self.now size p }
        ensures spot_range { IfSome result IsSpot }
    {
        let at = self.to_view(p)?;
        Some(self.project(size, at))
    }

    /// Returns the view-space point of a mesh point, if the point is no nearer than the near plane.
    pub fn to_view(&self, p: Pt) -> Option<ViewPoint>
        requires grid_point { IsGridPoint p }
        ensures beyond_near { IfSome result (IsBeyondNear self.now) }
        ensures spot { (size : Size) → spot_of self.now size p
            ≡ option_map (spot_at self.now size) result }
    {
        let depth = dot_from_eye(self.forward, self.eye, p);
        if depth < self.near as i64 {
            return None;
        }
        Some(ViewPoint {
            right: dot_from_eye(self.right, self.eye, p),
            down: dot_from_eye(self.down, self.eye, p),
            depth,
        })
    }

    /// Returns the screen position and depth of a view-space point in a picture of this size.
    pub fn project(&self, size: Size, at: ViewPoint) -> Spot
        requires picture { IsPicture size }
        requires beyond_near { IsBeyondNear self.now at }
        ensures spot { result ≡ spot_at self.now size at }
        ensures spot_range { IsSpot result }
    {
        Spot {
            x: half_side(size.width) + project_axis(self.focal, at.right, at.depth),
            y: half_side(size.height) + project_axis(self.focal, at.down, at.depth),
            z: reversed_depth(self.near, at.depth),
        }
    }

    /// Whether all three points are on one side of the centres of all pixels of the picture, so that
    /// their triangle covers no pixel. The test does not divide.
    pub fn is_off_screen(&self, size: Size, a: ViewPoint, b: ViewPoint, c: ViewPoint) -> bool
        requires picture { IsPicture size }
        requires beyond_near { IsBeyondNear self.now a × IsBeyondNear self.now b × IsBeyondNear self.now c }
        ensures { result ≡ true → (cluster place : ℕ) →
            words_of (spot_at self.now size a) (spot_at self.now size b) (spot_at self.now size c)
            cluster place size ≡ [] }
    {
        let focal = self.focal;
        let Size { width, height } = size;
        all_off_one_side(focal, width, a.horizontal(), b.horizontal(), c.horizontal())
            || all_off_one_side(focal, height, a.vertical(), b.vertical(), c.vertical())
    }
}

/// Returns the camera of numbers that are all in range.
fn from_numbers(numbers: &[i64; 15]) -> Camera
    requires { first_bad numbers.now ≡ None }
    ensures { result ≡ view_of_numbers numbers.now }
{
    Camera {
        focal: numbers[0] as u32,
        near: numbers[1] as u64,
        tolerance: numbers[2] as u32,
        eye: Pt {
            x: numbers[3] as i32,
            y: numbers[4] as i32,
            z: numbers[5] as i32,
        },
        right: row_at(numbers, 6),
        down: row_at(numbers, 9),
        forward: row_at(numbers, 12),
    }
}

/// Returns the rotation row whose entries begin at the index `place`.
fn row_at(numbers: &[i64; 15], place: usize) -> RotationRow
    requires least_field { 6 ≤ place }
    requires greatest_field { place ≤ 12 }
    requires entries { (k : ℕ) → k < 15 → 6 ≤ k → unsigned_abs (number_at numbers.now k) ≤ ROTATION_ONE }
    ensures { direction_of result ≡ direction_at numbers.now place }
{
    RotationRow {
        x: numbers[place] as i32,
        y: numbers[place + 1] as i32,
        z: numbers[place + 2] as i32,
    }
}

#[cfg(test)]
mod tests {
    use super::*;

    /// A camera 4,096 grid steps above the plane, looking down.
    const FROM_ABOVE: [i64; 15] = [
        4, 33_554_432, 0, 0, 4_096, 0, 16_384, 0, 0, 0, 0, 16_384, 0, -16_384, 0,
    ];

    fn is_shared<T: Send + Sync>(_value: &T) -> bool {
        true
    }

    #[test]
    fn cameras_can_be_shared(rt: HostRuntime) {
        let camera = Camera::new(FROM_ABOVE).expect(&rt, "a camera");
        assert!(rt; is_shared(&camera));
    }

    fn spot(x: i64, y: i64, z: u32) -> Option<Spot> {
        Some(Spot { x, y, z })
    }

    fn point(x: i16, y: i16, z: i16) -> Pt
        ensures { IsGridPoint result }
    {
        Pt {
            x: x.into(),
            y: y.into(),
            z: z.into(),
        }
    }

    #[test]
    fn points_are_seen(rt: HostRuntime) {
        let size = Size {
            width: 4,
            height: 4,
        };
        let camera = Camera::new(FROM_ABOVE).expect(&rt, "a camera");
        let cases = [
            ("lower left", (-1024, 0, 1024), spot(16, 48, 536_870_911)),
            ("lower right", (1024, 0, 1024), spot(48, 48, 536_870_911)),
            ("upper right", (1024, 0, -1024), spot(48, 16, 536_870_911)),
            ("raised", (1024, 1024, -1024), spot(53, 10, 715_827_882)),
            ("at the eye", (0, 4096, 0), None),
            (
                "at the near depth",
                (0, 2048, 0),
                spot(32, 32, 1_073_741_823),
            ),
            ("nearer than it", (0, 2049, 0), None),
        ];
        for (name, (x, y, z), want) in cases {
            let seen = camera.screen(size, point(x, y, z));
            assert_eq!(rt; seen, want, "{name}");
        }
    }

    // The picture's centres are 8, 24, 40 and 56 sixteenths from its edge.
    #[test]
    fn triangles_are_missed(rt: HostRuntime) {
        let size = Size {
            width: 4,
            height: 4,
        };
        let camera = Camera::new(FROM_ABOVE).expect(&rt, "a camera");
        let cases = [
            (
                "left of the first column",
                (-1536, -1600, -4096),
                (0, 512, 0),
                true,
            ),
            ("on it", (-1536, -1536, -1536), (0, 512, 0), true),
            (
                "one point right of it",
                (-1536, -1472, -1536),
                (0, 512, 0),
                false,
            ),
            ("on the last column", (1536, 1600, 1600), (0, 512, 0), false),
            ("right of it", (1600, 1600, 4096), (0, 512, 0), true),
            ("above", (0, 512, 0), (-1536, -1600, -4096), true),
            ("below", (0, 512, 0), (1600, 1600, 4096), true),
            (
                "left and above, but round the centre",
                (-1600, 1600, 0),
                (0, 0, 1600),
                false,
            ),
        ];
        for (name, (xa, xb, xc), (za, zb, zc), want) in cases {
            let corners = (
                camera.to_view(point(xa, 0, za)),
                camera.to_view(point(xb, 0, zb)),
                camera.to_view(point(xc, 0, zc)),
            );
            let (Some(a), Some(b), Some(c)) = corners else {
                panic!(&rt; "{name}");
            };
            assert_eq!(rt; camera.is_off_screen(size, a, b, c), want, "{name}");
        }
    }

    #[test]
    fn nothing_is_seen_from_near(rt: HostRuntime) {
        let size = Size {
            width: 4,
            height: 4,
        };
        let mut numbers = FROM_ABOVE;
        numbers[1] = 17_179_869_184;
        let camera = Camera::new(numbers).expect(&rt, "a camera");
        assert_eq!(rt; camera.screen(size, point(-1024, 0, 1024)), None);
    }
}
