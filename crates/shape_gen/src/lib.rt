//! Closed test meshes of any size, made from two numbers: boxes whose lattice points are moved by a hash.
//!
//! A box of size n is the surface of a cube of n by n by n cells, `CELL_STEPS` grid steps each: six sides of n by n
//! quadrilaterals, each cut into two triangles. Every lattice point is moved by less than `OFFSETS` grid steps along
//! each axis, by a linear hash of its place and the box's number, so that no two boxes of one size have the same
//! points unless their numbers agree modulo `OFFSETS`.
//!
//! `bumpy_box` gives the triangles, `box_text` the same mesh as a Wavefront OBJ text in grid steps. `geom_core` has
//! points and triangles, and `obj_source` the meaning of a text, which only a law names. On `Memory` nothing is returned.
#![tactic(auto)]

mod boxes;
mod lattice;
pub mod laws;
mod sides;
#[cfg(test)]
mod tests;
mod texts;

pub use boxes::bumpy_box;
pub use lattice::{CELL_STEPS, MAX_BOX_SIZE, OFFSETS, Place};
pub use sides::{Axis, End, Face};
pub use texts::box_text;
