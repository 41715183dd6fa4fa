//! Meshes from Wavefront OBJ text: vertices and polygons of any export, with the exact first fault.
//!
//! Which triangles a text lists, and which fault is its first, is defined in `specs/Mesh.antt`; `read_obj` keeps
//! it, over a source that gives the text in pieces of any size. `specs/Numerals.antt` says which words are
//! numerals and which coordinate each gives.
#![tactic(auto)]

mod decimals;
mod faults;
mod line_state;
mod mesh_builder;
mod numbers;
mod obj_scanner;
mod reading;
mod references;
mod rounding;

pub use faults::{ObjFault, ObjWhy};
pub use numbers::{NumberWhy, read_coordinate};
pub use reading::read_obj;

#[cfg(test)]
mod number_tests;
#[cfg(test)]
mod tests;
