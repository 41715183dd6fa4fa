ghost use Rattle.std.specs.Prelude.{◌≡◌, ◌++◌, ◌<◌, filter, IfOk, OnOk};
ghost use Rattle.shape_gen.specs.Lattice.{IsBoxSize, IsPlace, is_on_surface, row_places, layer_places, lattice, offset, point_at};

use geom_core::{Memory, Pt};
use std::alloc::Global;

/// Grid steps along the edge of a cell.
pub const CELL_STEPS: u32 = 2_048;

/// The offsets of lattice points along each axis are below this number of grid steps, a prime.
pub const OFFSETS: u32 = 251;

/// Most cells along an edge of a box: a greater box has more triangles than a mesh may have.
pub const MAX_BOX_SIZE: u32 = 295;

/// A place of a box's lattice, in cells from the box's least corner. Places are ordered by i, then j, then k.
#[derive(Clone, Copy, Debug, PartialEq, Eq, PartialOrd, Ord)]
pub struct Place {
    /// Cells along x.
    pub i: u16,
    /// Cells along y.
    pub j: u16,
    /// Cells along z.
    pub k: u16,
}

/// Whether the place is on a side of the cube.
fn is_on_surface(n: u16, p: Place) -> bool
    ensures { result ≡ is_on_surface n p }
{
    p.i == 0 || p.i == n || p.j == 0 || p.j == n || p.k == 0 || p.k == n
}

/// Appends the places of a row along z that are on a side.
fn push_row(places: &mut Vec<Place>, n: u16, i: u16, j: u16) -> Result<(), Memory>
    requires size_range { IsBoxSize n }
    ensures { OnOk result (places.new.items ≡
        places.old.items ++ filter (is_on_surface n) (row_places n i j)) }
{
    for k in 0..n + 1 {
        let place = Place { i, j, k };
        if is_on_surface(n, place) {
            places.push(place)?;
        }
    }
    Ok(())
}

/// Appends the places of a layer across x that are on a side.
fn push_layer(places: &mut Vec<Place>, n: u16, i: u16) -> Result<(), Memory>
    requires size_range { IsBoxSize n }
    ensures { OnOk result (places.new.items ≡
        places.old.items ++ filter (is_on_surface n) (layer_places n i)) }
{
    for j in 0..n + 1 {
        push_row(places, n, i, j)?;
    }
    Ok(())
}

/// Returns the places of the lattice, ascending.
pub(crate) fn lattice(alloc: Global, n: u16) -> Result<Vec<Place>, Memory>
    requires size_range { IsBoxSize n }
    ensures { IfOk result (λ places. places.items ≡ lattice n) }
{
    let mut places = Vec::with_capacity(alloc, 6 * n as usize * n as usize + 2)?;
    for i in 0..n + 1 {
        push_layer(&mut places, n, i)?;
    }
    Ok(places)
}

/// Returns how far the box's number moves the point at a place along x.
fn offset(number: u32, p: Place) -> u32
    requires place_range { IsPlace p }
    ensures offset { result ≡ offset number p }
    ensures offset_limit { result < OFFSETS }
{
    let hash = 7 * u32::from(p.i) + 31 * u32::from(p.j) + 101 * u32::from(p.k) + 1;
    (number % OFFSETS) * (hash % OFFSETS) % OFFSETS
}

/// Returns the point at a place.
pub(crate) fn point_at(number: u32, p: Place) -> Pt
    requires place_range { IsPlace p }
    ensures { result ≡ point_at number p }
{
    let offset = offset(number, p);
    Pt {
        x: (CELL_STEPS * u32::from(p.i) + offset) as i32,
        y: (CELL_STEPS * u32::from(p.j) + 2 * offset % OFFSETS) as i32,
        z: (CELL_STEPS * u32::from(p.k) + 4 * offset % OFFSETS) as i32,
    }
}
