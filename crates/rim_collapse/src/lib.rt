//! Simplification of a list of triangles by half-edge collapses, with points that must stay.
//!
//! A collapse moves a point along an edge to another point and leaves out the triangles that then have two equal
//! corners (Hoppe, "Progressive meshes", 1996, in the half-edge form of Kobbelt, Campagna and Seidel, "A general
//! framework for mesh decimation", 1998). The least legal collapse is done first, until half of the triangles are
//! left or no collapse is legal. A collapse's cost is the sum of the distances from its target to the planes of the
//! triangles round the moved point, each times twice the triangle's area; it is no quadric. A collapse that turns a
//! triangle over isn't legal. If all points on the rim are locked, no edge sum changes, so no crack arises between
//! lists that are simplified one by one.
//!
//! The rule is in `specs/` and knows no queue; `laws` says that it determines the result, and what follows for edge
//! sums. `geom_core` has points, triangles and collapses.
#![tactic(auto)]

mod bests;
mod chains;
mod corners;
mod faces;
mod facets;
mod keys;
pub mod laws;
mod least;
mod number_sets;
mod points;
mod rounds;
mod simplifying;
mod states;
#[cfg(test)]
mod tests;
mod vectors;

pub use simplifying::{Simplified, simplify};
pub use states::Kept;
