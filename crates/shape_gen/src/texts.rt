ghost use Rattle.std.specs.Prelude.{◌≡◌, ◌++◌, ◌≤◌, ◌<◌, ◌^◌, ◌+◌, ◌∷◌, [], IfOk, OnOk, All, AllPairs, codes, decimal, length, flat_map};
ghost use Rattle.shape_gen.specs.BoxText.{face_line, text_of_box, vertex_line, vertex_number};
ghost use Rattle.shape_gen.specs.Lattice.{IsBoxSize, IsPlace};
ghost use Rattle.shape_gen.specs.Order.{IsAscending};

use crate::lattice::{Place, lattice, point_at};
use crate::sides::{Face, faces};
use geom_core::Memory;
use itoa::Buffer;
use std::alloc::Global;

/// Most bytes of a vertex's line: a letter, three numbers of six digits, three spaces and a line feed.
const VERTEX_LINE: usize = 23;

/// Most bytes of a face's line: a letter, four numbers of six digits, four spaces and a line feed.
const FACE_LINE: usize = 30;

/// Returns the Wavefront OBJ text of the box of n by n by n cells with this number: a `v` line for each place of the
/// lattice, in ascending order of places, with the point in grid steps; then an `f` line for each face.
pub fn box_text(alloc: Global, n: u32, number: u32) -> Result<Vec<u8>, Memory>
    requires size_range { IsBoxSize n }
    ensures text { IfOk result (λ text. text.items ≡ text_of_box n number) }
{
    let places = lattice(alloc, n as u16)?;
    let faces = faces(alloc, n as u16)?;
    let room = VERTEX_LINE * places.len() + FACE_LINE * faces.len();
    let mut text = Vec::with_capacity(alloc, room)?;
    push_vertices(&mut text, number, &places)?;
    push_faces(&mut text, &places, &faces)?;
    Ok(text)
}

/// Appends the lines of the places' vertices.
fn push_vertices(text: &mut Vec<u8>, number: u32, places: &[Place]) -> Result<(), Memory>
    requires place_range { All IsPlace places.now }
    ensures { OnOk result (text.new.items ≡
        text.old.items ++ flat_map (vertex_line number) places.now) }
{
    for place in places {
        push_vertex(text, number, *place)?;
    }
    Ok(())
}

/// Appends the lines of the faces.
fn push_faces(text: &mut Vec<u8>, places: &[Place], faces: &[Face]) -> Result<(), Memory>
    requires ascending { IsAscending places.now }
    requires place_limit { length places.now < 2 ^ 31 }
    ensures { OnOk result (text.new.items ≡
        text.old.items ++ flat_map (face_line places.now) faces.now) }
{
    for face in faces {
        push_face(text, places, *face)?;
    }
    Ok(())
}

/// Appends a space and the number.
fn push_number(text: &mut Vec<u8>, number: u32) -> Result<(), Memory>
    ensures { OnOk result (text.new.items ≡ text.old.items ++ 32 ∷ decimal number) }
{
    text.push(b' ')?;
    text.extend_from_slice(Buffer::new().format(number).as_bytes())?;
    Ok(())
}

/// Appends the line of a vertex.
fn push_vertex(text: &mut Vec<u8>, number: u32, place: Place) -> Result<(), Memory>
    requires place_range { IsPlace place }
    ensures { OnOk result (text.new.items ≡ text.old.items ++ vertex_line number place) }
{
    let point = point_at(number, place);
    text.push(b'v')?;
    push_number(text, point.x as u32)?;
    push_number(text, point.y as u32)?;
    push_number(text, point.z as u32)?;
    text.push(b'\n')?;
    Ok(())
}

/// Returns the number of the place's vertex: its index in the lattice, from 1.
fn vertex_number(places: &[Place], place: Place) -> u32
    requires ascending { IsAscending places.now }
    requires place_limit { length places.now < 2 ^ 31 }
    ensures { result ≡ vertex_number places.now place }
{
    match places.binary_search(&place) {
        Ok(index) => index as u32 + 1,
        Err(_) => places.len() as u32 + 1,
    }
}

/// Appends the line of a face.
fn push_face(text: &mut Vec<u8>, places: &[Place], face: Face) -> Result<(), Memory>
    requires ascending { IsAscending places.now }
    requires place_limit { length places.now < 2 ^ 31 }
    ensures { OnOk result (text.new.items ≡ text.old.items ++ face_line places.now face) }
{
    text.push(b'f')?;
    push_number(text, vertex_number(places, face.a))?;
    push_number(text, vertex_number(places, face.b))?;
    push_number(text, vertex_number(places, face.c))?;
    push_number(text, vertex_number(places, face.d))?;
    text.push(b'\n')?;
    Ok(())
}
