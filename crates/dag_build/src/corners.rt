ghost use Rattle.std.specs.Prelude.{◌≡◌, ◌++◌, OnOk, IfOk, flat_map};
ghost use Rattle.geom_core.specs.TaggedLists.{tris_of};
ghost use Rattle.dag_build.specs.Grouping.{corners_of, low_corner_of};

use geom_core::{Cube, Memory, Pt, Tagged, Tri};
use std::alloc::Global;

/// Returns the triangles without their sources.
pub(crate) fn plain_tris(alloc: Global, tagged: &[Tagged]) -> Result<Vec<Tri>, Memory>
    ensures triangles { IfOk result (λ tris. tris.items ≡ tris_of tagged.now) }
{
    let mut tris = Vec::with_capacity(alloc, tagged.len())?;
    for t in tagged {
        tris.push(t.tri)?;
    }
    Ok(tris)
}

/// Appends the corners of each triangle.
pub(crate) fn push_corners(points: &mut Vec<Pt>, tris: &[Tagged]) -> Result<(), Memory>
    ensures corners { OnOk result (
        points.new.items ≡ points.old.items ++ flat_map corners_of (tris_of tris.now)) }
{
    for t in tris {
        points.push(t.tri.a)?;
        points.push(t.tri.b)?;
        points.push(t.tri.c)?;
    }
    Ok(())
}

/// Returns the low corner of the box round the triangles; the origin if there is none.
pub(crate) fn low_corner(alloc: Global, tris: &[Tagged]) -> Result<Pt, Memory>
    ensures corner { IfOk result (λ low. low ≡ low_corner_of (tris_of tris.now)) }
{
    let mut points = Vec::new(alloc);
    push_corners(&mut points, tris)?;
    match Cube::hull(&points) {
        Some(cube) => Ok(cube.lo),
        None => Ok(Pt { x: 0, y: 0, z: 0 }),
    }
}
