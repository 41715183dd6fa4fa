ghost use Rattle.std.specs.Prelude.{◌≡◌, fold};
ghost use Rattle.geom_core.specs.Boxes.{high_of, holds_box, hull_of, is_under, join_of, low_of, point_box};
ghost use Rattle.geom_core.specs.Distance.{box_distance, outside};

use crate::points::Pt;

/// An axis-aligned bounding box (AABB), faces included: the points from `lo` to `hi` on each axis.
///
/// The type does not require `lo` to be at most `hi` on each axis; if it is not, no point is in the box.
#[derive(Clone, Copy, Debug, PartialEq, Eq)]
pub struct Cube {
    /// The corner of least x, y and z.
    pub lo: Pt,
    /// The corner of greatest x, y and z.
    pub hi: Pt,
}

/// Returns the lesser coordinate of the two points on each axis.
fn low(p: Pt, q: Pt) -> Pt
    ensures { result ≡ low_of p q }
{
    Pt {
        x: p.x.min(q.x),
        y: p.y.min(q.y),
        z: p.z.min(q.z),
    }
}

/// Returns the greater coordinate of the two points on each axis.
fn high(p: Pt, q: Pt) -> Pt
    ensures { result ≡ high_of p q }
{
    Pt {
        x: p.x.max(q.x),
        y: p.y.max(q.y),
        z: p.z.max(q.z),
    }
}

/// Whether p is at most q on each axis.
#[tactic(auto, unfolding(crate::specs::Boxes::is_under))]
fn is_under(p: Pt, q: Pt) -> bool
    ensures { result ≡ is_under p q }
{
    p.x <= q.x && p.y <= q.y && p.z <= q.z
}

/// Returns how far a coordinate lies outside the range from `lo` to `hi`; 0 within it.
#[tactic(auto, unfolding(crate::specs::Distance::outside))]
fn outside(lo: i32, hi: i32, v: i32) -> u32
    ensures { result ≡ outside lo hi v }
{
    if v < lo {
        lo.abs_diff(v)
    } else if hi < v {
        v.abs_diff(hi)
    } else {
        0
    }
}

/// Returns the box that holds this point alone.
fn point_box(p: Pt) -> Cube
    ensures { result ≡ point_box p }
{
    Cube { lo: p, hi: p }
}

/// Returns the smallest box that holds the box and the points.
fn widened(start: Cube, points: &[Pt]) -> Cube
    ensures { result ≡ fold (λ box q. join_of box (point_box q)) start points.now }
{
    let mut hull = start;
    for point in points {
        hull = hull.join(point_box(*point));
    }
    hull
}

impl Cube {
    /// Returns the smallest box that holds the points, or `None` if there is no point.
    pub fn hull(points: &[Pt]) -> Option<Cube>
        ensures hull { result ≡ hull_of points.now }
    {
        let (first, rest) = points.split_first()?;
        Some(widened(point_box(*first), rest))
    }

    /// Returns the smallest box that holds both boxes.
    #[tactic(auto, unfolding(crate::specs::Boxes::join_of))]
    pub fn join(self, other: Cube) -> Cube
        ensures join { result ≡ join_of self other }
    {
        Cube {
            lo: low(self.lo, other.lo),
            hi: high(self.hi, other.hi),
        }
    }

    /// Whether the other box lies in this one, faces included.
    #[tactic(auto, unfolding(crate::specs::Boxes::holds_box))]
    pub fn contains(self, other: Cube) -> bool
        ensures held { result ≡ holds_box self other }
    {
        is_under(self.lo, other.lo) && is_under(other.hi, self.hi)
    }

    /// Returns the Chebyshev distance from the box to the point, in grid steps; 0 if the point is in the box.
    #[tactic(auto, unfolding(crate::specs::Distance::box_distance))]
    pub fn distance_to(self, p: Pt) -> u32
        ensures distance { result ≡ box_distance self p }
    {
        let x = outside(self.lo.x, self.hi.x, p.x);
        let y = outside(self.lo.y, self.hi.y, p.y);
        let z = outside(self.lo.z, self.hi.z, p.z);
        x.max(y.max(z))
    }
}
