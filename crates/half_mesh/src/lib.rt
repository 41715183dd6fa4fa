//! The edges of a list of triangles: their sums, the rim (the boundary edges), and the triangles round a point.
//!
//! An edge's sum is the number of times that the triangles run along it from its first point to its second, less
//! the number of times that they run back; an edge is on the rim if its sum isn't 0. The definitions are in
//! `geom_core`.
//!
//! A rim is made of the triangles' edges, each with 1 or -1: most of them cancel in a small table by their hash, and
//! a sort of the others and one walk add up equal edges. Rims of lists add up to the rim of the joined list, so each
//! triangle's edges are listed once. A table of edges has a rim, and the corners in one stable sort by point: the
//! triangles round a point are a run of that list.
//!
//! On `Memory` what was given is unchanged, and nothing is kept.
#![tactic(auto)]

mod cancelling;
mod corners;
mod edges;
mod incidences;
pub mod laws;
mod rims;
mod search;
mod tables;
mod terms;
#[cfg(test)]
mod tests;

pub use edges::{Edge, edges_are_ordered};
pub use rims::Rim;
pub use tables::EdgeTable;
