//! Triangle geometry on an integer grid: the plain types, the limits, and the definitions that every other
//! crate cites, of boxes, distances, edge sums, projection, winding, depth and the picture.
//!
//! All geometry is exact: coordinates are whole grid steps, screen positions whole sixteenths of a pixel. The
//! definitions are in `specs/`, one idea a file. `laws` and `box_laws` state what follows from them, as functions
//! without a body; worked examples are in `proofs/`.
#![tactic(auto)]

pub mod box_laws;
mod boxes;
mod digests;
mod distances;
pub mod laws;
pub mod limits;
mod lists;
mod out_of_memory;
mod points;
mod screens;
mod tagged_tris;
mod triangles;
mod views;
mod windings;

pub use boxes::Cube;
pub use digests::Digest32;
pub use distances::cheb;
pub use lists::{Nums, Words};
pub use out_of_memory::Memory;
pub use points::{Pt, points_are_ordered};
pub use screens::{Size, Spot};
pub use tagged_tris::TaggedTris;
pub use triangles::{Tagged, Tri};
pub use views::Lens;
pub use windings::divisor_is_not_zero;
