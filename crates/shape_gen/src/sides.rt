ghost use Rattle.std.specs.Prelude.{◌≡◌, ◌++◌, ◌<◌, IfOk, OnOk};
ghost use Rattle.shape_gen.specs.Lattice.{IsBoxSize};
ghost use Rattle.shape_gen.specs.Sides.{place_on, face_on, row_faces, side_faces, axis_faces, faces};

use crate::lattice::Place;
use geom_core::Memory;
use std::alloc::Global;

/// An axis of the box.
#[derive(Clone, Copy, Debug, PartialEq, Eq)]
pub enum Axis {
    /// The first axis.
    X,
    /// The second axis.
    Y,
    /// The third axis.
    Z,
}

/// An end of an axis: the side of the box at depth 0, or the one opposite to it.
#[derive(Clone, Copy, Debug, PartialEq, Eq)]
pub enum End {
    /// The side at depth 0.
    First,
    /// The side at depth n.
    Last,
}

/// A quadrilateral of a box by its corners in order.
#[derive(Clone, Copy, Debug, PartialEq, Eq)]
pub struct Face {
    /// The first corner, round which the face is cut into a fan.
    pub a: Place,
    /// The second corner.
    pub b: Place,
    /// The third corner, opposite to the first.
    pub c: Place,
    /// The fourth corner.
    pub d: Place,
}

/// Returns the place with this depth on the axis, p on the next axis in the cycle x, y, z, and q on the one
/// after that.
fn place_on(axis: Axis, depth: u16, p: u16, q: u16) -> Place
    ensures { result ≡ place_on axis depth p q }
{
    match axis {
        Axis::X => Place {
            i: depth,
            j: p,
            k: q,
        },
        Axis::Y => Place {
            i: q,
            j: depth,
            k: p,
        },
        Axis::Z => Place {
            i: p,
            j: q,
            k: depth,
        },
    }
}

/// Returns the face of the cell at p and q, on the side at one end of the axis. The corners of both sides go
/// counterclockwise as seen from outside:
///
/// ```text
///   q+1  d---c        q+1  b---c
///        |   |             |   |
///   q    a---b        q    a---d
///        p   p+1           p   p+1
///        End::Last         End::First
/// ```
fn face_on(n: u16, axis: Axis, end: End, p: u16, q: u16) -> Face
    requires size_range { IsBoxSize n }
    requires cell_range { (p < n) × (q < n) }
    ensures { result ≡ face_on n axis end p q }
{
    match end {
        End::First => Face {
            a: place_on(axis, 0, p, q),
            b: place_on(axis, 0, p, q + 1),
            c: place_on(axis, 0, p + 1, q + 1),
            d: place_on(axis, 0, p + 1, q),
        },
        End::Last => Face {
            a: place_on(axis, n, p, q),
            b: place_on(axis, n, p + 1, q),
            c: place_on(axis, n, p + 1, q + 1),
            d: place_on(axis, n, p, q + 1),
        },
    }
}

/// Appends the faces of a row of cells.
fn push_row(faces: &mut Vec<Face>, n: u16, axis: Axis, end: End, p: u16) -> Result<(), Memory>
    requires size_range { IsBoxSize n }
    requires row_range { p < n }
    ensures { OnOk result (faces.new.items ≡ faces.old.items ++ row_faces n axis end p) }
{
    for q in 0..n {
        faces.push(face_on(n, axis, end, p, q))?;
    }
    Ok(())
}

/// Appends the faces of a side.
fn push_side(faces: &mut Vec<Face>, n: u16, axis: Axis, end: End) -> Result<(), Memory>
    requires size_range { IsBoxSize n }
    ensures { OnOk result (faces.new.items ≡ faces.old.items ++ side_faces n axis end) }
{
    for p in 0..n {
        push_row(faces, n, axis, end, p)?;
    }
    Ok(())
}

/// Appends the faces of both sides across the axis.
fn push_axis(faces: &mut Vec<Face>, n: u16, axis: Axis) -> Result<(), Memory>
    requires size_range { IsBoxSize n }
    ensures { OnOk result (faces.new.items ≡ faces.old.items ++ axis_faces n axis) }
{
    push_side(faces, n, axis, End::First)?;
    push_side(faces, n, axis, End::Last)
}

/// Returns the faces of the box, side by side.
pub(crate) fn faces(alloc: Global, n: u16) -> Result<Vec<Face>, Memory>
    requires size_range { IsBoxSize n }
    ensures { IfOk result (λ listed. listed.items ≡ faces n) }
{
    let mut faces = Vec::with_capacity(alloc, 6 * n as usize * n as usize)?;
    push_axis(&mut faces, n, Axis::X)?;
    push_axis(&mut faces, n, Axis::Y)?;
    push_axis(&mut faces, n, Axis::Z)?;
    Ok(faces)
}
