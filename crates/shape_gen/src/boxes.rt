ghost use Rattle.std.specs.Prelude.{◌≡◌, ◌++◌, IfOk, OnOk};
ghost use Rattle.geom_core.specs.Limits.{AreGridTriangles};
ghost use Rattle.shape_gen.specs.Boxes.{fan_of, triangles_of_box};
ghost use Rattle.shape_gen.specs.Lattice.{IsBoxSize, IsPlace};

use crate::lattice::point_at;
use crate::sides::{Face, faces};
use geom_core::{Memory, Tri};
use std::alloc::Global;

/// Returns the triangles of the box of n by n by n cells with this number: a fan for each face, 12 n^2 triangles in
/// all, whose edge sums are all 0.
pub fn bumpy_box(alloc: Global, n: u32, number: u32) -> Result<Vec<Tri>, Memory>
    requires size_range { IsBoxSize n }
    ensures triangles { IfOk result (λ tris. tris.items ≡ triangles_of_box n number) }
    ensures grid { IfOk result (λ tris. AreGridTriangles tris.items) }
{
    let faces = faces(alloc, n as u16)?;
    let mut tris = Vec::with_capacity(alloc, 2 * faces.len())?;
    for face in &faces {
        push_fan(&mut tris, number, *face)?;
    }
    Ok(tris)
}

/// Appends the two triangles of a face.
fn push_fan(tris: &mut Vec<Tri>, number: u32, face: Face) -> Result<(), Memory>
    requires place_range { IsPlace face.a × IsPlace face.b × IsPlace face.c × IsPlace face.d }
    ensures { OnOk result (tris.new.items ≡ tris.old.items ++ fan_of number face) }
{
    let first = point_at(number, face.a);
    let third = point_at(number, face.c);
    tris.push(Tri {
        a: first,
        b: point_at(number, face.b),
        c: third,
    })?;
    tris.push(Tri {
        a: first,
        b: third,
        c: point_at(number, face.d),
    })?;
    Ok(())
}
