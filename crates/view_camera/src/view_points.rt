ghost use Rattle.std.specs.Prelude.{◌≡◌};

use crate::projections::ViewAxis;

/// A view-space point: its offset from the eye in the camera's axes, in grid steps times `ROTATION_ONE`.
#[derive(Clone, Copy, Debug, PartialEq, Eq)]
pub struct ViewPoint {
    /// The distance to the right of the eye.
    pub right: i64,
    /// The distance below the eye.
    pub down: i64,
    /// The distance ahead of the eye.
    pub depth: i64,
}

impl ViewPoint {
    /// Returns the point's horizontal axis: offset to the right and distance ahead.
    pub(crate) fn horizontal(&self) -> ViewAxis
        ensures { result ≡ record { offset = self.now.right; depth = self.now.depth } }
    {
        ViewAxis {
            offset: self.right,
            depth: self.depth,
        }
    }

    /// Returns the point's vertical axis: offset down and distance ahead.
    pub(crate) fn vertical(&self) -> ViewAxis
        ensures { result ≡ record { offset = self.now.down; depth = self.now.depth } }
    {
        ViewAxis {
            offset: self.down,
            depth: self.depth,
        }
    }
}
