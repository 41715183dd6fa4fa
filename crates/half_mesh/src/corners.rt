ghost use Rattle.std.specs.Prelude.{◌≡◌, ◌≤◌, ◌<◌, ◌^◌, ◌++◌, OnOk, IfOk, length};
ghost use Rattle.geom_core.specs.declared.limits.TheConstants.{MAX_SUMMED_TRIANGLES};
ghost use Rattle.geom_core.specs.declared.points.Pt.{Pt};
ghost use Rattle.half_mesh.specs.Incidences.{at_point, IsByPoint};
ghost use Rattle.half_mesh.specs.Corners.{corner_at, corners_at, corners_of};

use crate::incidences::{Incidence, sort_by_point};
use geom_core::{Memory, Pt, Tri};
use std::alloc::Global;

/// Adds a corner of triangle `number`, unless an earlier corner has its point.
fn push_corner(
    corners: &mut Vec<Incidence<u32>>,
    number: u32,
    point: Pt,
    repeats: bool,
) -> Result<(), Memory>
    ensures { OnOk result (corners.new.items ≡ corners.old.items ++
        corner_at number point repeats) }
{
    if !repeats {
        corners.push(Incidence {
            point,
            what: number,
        })?;
    }
    Ok(())
}

/// Adds the corners of one triangle, each point once.
fn push_corners(corners: &mut Vec<Incidence<u32>>, number: u32, tri: Tri) -> Result<(), Memory>
    ensures { OnOk result (corners.new.items ≡ corners.old.items ++ corners_at number tri) }
{
    let Tri { a, b, c } = tri;
    push_corner(corners, number, a, false)?;
    push_corner(corners, number, b, b == a)?;
    push_corner(corners, number, c, c == a || c == b)?;
    Ok(())
}

/// The corners of the triangles in order, each with its triangle's number.
fn list_corners(alloc: Global, tris: &[Tri]) -> Result<Vec<Incidence<u32>>, Memory>
    requires triangle_limit { length tris.now ≤ MAX_SUMMED_TRIANGLES }
    ensures { IfOk result (λ corners. corners.items ≡ corners_of tris.now) }
{
    let mut corners = Vec::with_capacity(alloc, 3 * tris.len())?;
    for (number, tri) in tris.iter().enumerate() {
        push_corners(&mut corners, number as u32, *tri)?;
    }
    Ok(corners)
}

/// The corners of the triangles by point, those of one point by their triangles' numbers.
pub(crate) fn sorted_corners(alloc: Global, tris: &[Tri]) -> Result<Vec<Incidence<u32>>, Memory>
    requires triangle_limit { length tris.now ≤ MAX_SUMMED_TRIANGLES }
    ensures sorted { IfOk result (λ corners. IsByPoint corners.items) }
    ensures groups { IfOk result (λ corners.
        (p : Pt) → at_point p corners.items ≡ at_point p (corners_of tris.now)) }
{
    let mut corners = list_corners(alloc, tris)?;
    sort_by_point(&mut corners)?;
    Ok(corners)
}
