//! Batches of near items by greedy graph growing in Morton order: triangles into clusters, clusters into groups.
//!
//! Items are placed in an order, one after another. The next one is the least in rank of the neighbours of the
//! present batch that aren't placed yet; if there is none, it is the least of all that aren't placed. Every
//! batch but the last is full. An item's rank is its Morton key (Morton, "A computer oriented geodetic data base
//! and a new technique in file sequencing", 1966), then its number. Items are neighbours if they share an edge.
//!
//! The rule is in `specs/Growing.antt` and knows no queue; `laws` says that it determines the order, and what
//! follows for batches. `geom_core` has points, triangles and limits, `half_mesh` edges and the rims of clusters.
//!
//! Lists are only read. After `Memory` nothing is returned, and nothing has changed.
#![tactic(auto)]

mod batches;
mod clusters;
mod edge_uses;
mod edges_of_item;
mod frontiers;
mod groups;
mod growing;
#[cfg(test)]
mod growing_tests;
mod keys;
pub mod laws;
mod min_queue;
mod ranking;
mod shapes;
mod shared_edges;
#[cfg(test)]
mod tests;

pub use clusters::cut_clusters;
pub use groups::cut_groups;
pub use keys::morton;
pub use shapes::{ClusterShape, Edges};
