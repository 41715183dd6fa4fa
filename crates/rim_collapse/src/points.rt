ghost use Rattle.std.specs.Prelude.{◌≡◌, ◌≤◌, ◌<◌, ◌*◌, IfOk, flat_map, length, AllPairs, Contains};
ghost use Rattle.std.specs.declared.cmp.Ordering.TheVariants.{Less};
ghost use Rattle.geom_core.specs.declared.limits.TheConstants.{TRIANGLES_PER_GROUP};
ghost use Rattle.geom_core.specs.declared.points.Pt.{Pt};
ghost use Rattle.geom_core.specs.Corners.{IsCornerIn};
ghost use Rattle.geom_core.specs.Order.{point_cmp};
ghost use Rattle.geom_core.specs.TaggedLists.{tris_of};
ghost use Rattle.rim_collapse.specs.Internal.Faces.{point_at};
ghost use Rattle.rim_collapse.specs.Internal.Points.{corners_of};

use geom_core::{Memory, Pt, Tagged};
use std::alloc::Global;

/// Returns the corners of all triangles, in order.
fn list_corners(alloc: Global, tris: &[Tagged]) -> Result<Vec<Pt>, Memory>
    ensures { IfOk result (λ corners. corners.items ≡ flat_map corners_of (tris_of tris.now)) }
{
    let mut corners = Vec::new(alloc);
    for tagged in tris {
        corners.push(tagged.tri.a)?;
        corners.push(tagged.tri.b)?;
        corners.push(tagged.tri.c)?;
    }
    Ok(corners)
}

/// Returns the points that are corners of the triangles, ascending, each once.
pub(crate) fn points_of(alloc: Global, tris: &[Tagged]) -> Result<Vec<Pt>, Memory>
    ensures count { IfOk result (λ points. length points.items ≤ 3 * length tris.now) }
    ensures ascending { IfOk result (λ points. AllPairs (λ p q. point_cmp p q ≡ Less) points.items) }
    ensures corners { IfOk result (λ points.
        (p : Pt) → IsCornerIn (tris_of tris.now) p → Contains points.items p) }
{
    let mut points = list_corners(alloc, tris)?;
    points.sort_unstable();
    points.dedup();
    Ok(points)
}

/// Returns the number of a point: its index, from 0, in the ascending list.
pub(crate) fn number_of(points: &[Pt], p: Pt) -> u32
    requires point_limit { length points.now ≤ 3 * TRIANGLES_PER_GROUP }
    requires ascending { AllPairs (λ q r. point_cmp q r ≡ Less) points.now }
    requires listed { Contains points.now p }
    ensures number { result < length points.now }
    ensures point { point_at points.now result ≡ p }
{
    match points.binary_search(&p) {
        Ok(number) => number as u32,
        Err(number) => number as u32,
    }
}
