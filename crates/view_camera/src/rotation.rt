ghost use Rattle.std.specs.Prelude.{◌≡◌, ◌+◌, ◌*◌, ◌≤◌, ◌*ℤ◌, ◌-ℤ◌, unsigned_abs};
ghost use Rattle.geom_core.specs.declared.limits.TheConstants.{ROTATION_ONE, MAX_EYE, MAX_COORDINATE, MAX_DOT};
ghost use Rattle.geom_core.specs.Camera.{along};
ghost use Rattle.geom_core.specs.Limits.{IsEye, IsGridCoordinate, IsGridPoint};
ghost use Rattle.view_camera.specs.Internal.RotationRows.{IsRotationRow, direction_of};

use geom_core::Pt;

/// A row of the rotation from the mesh's axes to the camera's axes: a direction, in 1/`ROTATION_ONE`.
#[derive(Clone, Copy, Debug, PartialEq, Eq)]
pub(crate) struct RotationRow {
    pub(crate) x: i32,
    pub(crate) y: i32,
    pub(crate) z: i32,
}

/// Returns the dot product of the row with the offset of `p` from the eye, in grid steps times
/// `ROTATION_ONE`.
pub(crate) fn dot_from_eye(row: RotationRow, eye: Pt, p: Pt) -> i64
    requires rotation_row { IsRotationRow row }
    requires eye { IsEye eye }
    requires grid_point { IsGridPoint p }
    ensures dot { result ≡ along (direction_of row) eye p }
    ensures dot_limit { unsigned_abs result ≤ MAX_DOT }
{
    axis_product(row.x, eye.x, p.x)
        + axis_product(row.y, eye.y, p.y)
        + axis_product(row.z, eye.z, p.z)
}

/// Returns the product of one axis: the entry times the offset.
fn axis_product(entry: i32, from: i32, to: i32) -> i64
    requires entry { unsigned_abs entry ≤ ROTATION_ONE }
    requires from { unsigned_abs from ≤ MAX_EYE }
    requires to { IsGridCoordinate to }
    ensures product { result ≡ entry *ℤ (to -ℤ from) }
    ensures product_limit { unsigned_abs result ≤ ROTATION_ONE * (MAX_EYE + MAX_COORDINATE) }
{
    let away = i64::from(to) - i64::from(from);
    i64::from(entry) * away
}
