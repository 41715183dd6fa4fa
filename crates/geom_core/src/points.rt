ghost use Rattle.std.specs.Prelude.{◌≡◌};
ghost use Rattle.geom_core.specs.declared.points.Pt.{Pt};
ghost use Rattle.geom_core.specs.Limits.{is_grid_coordinate, is_grid_point};
ghost use Rattle.geom_core.specs.Order.{point_cmp};

use crate::limits::MAX_COORDINATE;

/// A point of the whole-number grid, in grid steps. Points are ordered by x, then y, then z.
///
/// A mesh's coordinates are at most `MAX_COORDINATE` from 0, an eye's at most `MAX_EYE`.
#[derive(Clone, Copy, Debug, PartialEq, Eq, PartialOrd, Ord)]
pub struct Pt {
    /// The coordinate that decides the order first.
    pub x: i32,
    /// The coordinate that decides at equal x.
    pub y: i32,
    /// The coordinate that decides at equal x and y.
    pub z: i32,
}

/// Law: points compare by x, then y, then z.
pub fn points_are_ordered()
    ensures { (p q : Pt) → ⟦<Pt as Ord>⟧.cmp p q ≡ point_cmp p q }
{}

/// Whether the number may be a coordinate of a mesh.
fn is_grid_coordinate(n: i32) -> bool
    ensures { result ≡ is_grid_coordinate n }
{
    n.unsigned_abs() <= MAX_COORDINATE
}

impl Pt {
    /// Whether the point may be a corner of a mesh: each coordinate is at most `MAX_COORDINATE` from 0.
    pub fn is_grid_point(self) -> bool
        ensures { result ≡ is_grid_point self }
    {
        is_grid_coordinate(self.x) && is_grid_coordinate(self.y) && is_grid_coordinate(self.z)
    }
}
