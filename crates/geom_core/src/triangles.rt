ghost use Rattle.std.specs.Prelude.{◌≡◌};
ghost use Rattle.geom_core.specs.Limits.{has_distinct_corners, is_grid_triangle};

use crate::points::Pt;

/// A triangle by its corners in order. Its directed edges are a to b, b to c and c to a.
#[derive(Clone, Copy, Debug, PartialEq, Eq)]
pub struct Tri {
    /// The first corner.
    pub a: Pt,
    /// The second corner.
    pub b: Pt,
    /// The third corner.
    pub c: Pt,
}

impl Tri {
    /// Whether no two corners are the same point.
    pub fn has_distinct_corners(self) -> bool
        ensures { result ≡ has_distinct_corners self }
    {
        self.a != self.b && self.b != self.c && self.c != self.a
    }

    /// Whether this may be a triangle of a mesh: three different corners, each coordinate at most
    /// `MAX_COORDINATE` from 0.
    pub fn is_grid_triangle(self) -> bool
        ensures { result ≡ is_grid_triangle self }
    {
        self.a.is_grid_point()
            && self.b.is_grid_point()
            && self.c.is_grid_point()
            && self.has_distinct_corners()
    }
}

/// A triangle of some level of detail, with the source triangle that it came from.
#[derive(Clone, Copy, Debug, PartialEq, Eq)]
pub struct Tagged {
    /// The triangle. Simplification may have moved its corners, each in its place.
    pub tri: Tri,
    /// The index, from 0, of its source triangle in the mesh that was read.
    pub source: u32,
}
