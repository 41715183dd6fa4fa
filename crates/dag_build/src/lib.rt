//! The DAG of a mesh's levels of detail: clusters are grouped, simplified and cut again, level after level.
//!
//! Level 0 has the clusters of the source triangles. The clusters of a level grow into groups; the triangles of a
//! group are simplified together with the points of their rim locked, so that groups fit together whichever of them
//! are replaced. What is left is cut into clusters of the next level. A group that is left with more than seven eighths
//! of its triangles, or whose level has one cluster, makes nothing: it is terminal. The levels end when none is made.
//! Clusters in groups with one error and one box each are those of Karis, Stubbe and Wihlidal, "A Deep Dive into Nanite
//! Virtualized Geometry" (SIGGRAPH 2021 course notes); the growing rule in place of a graph partitioner, the terminal
//! groups and the numbers are this repository's own.
//!
//! The rule is in `specs/`, over plain lists: `Built` has the levels, `Grouping` a group's members, `Outcomes` what becomes
//! of a group, `Numbers` the numbers in the DAG. `partition` cuts and groups, `half_mesh` has rims, `rim_collapse`
//! simplifies, `dag_core` has the DAG and its rules.
//!
//! The one error is `Memory`; after it the mesh that was given is gone.
#![tactic(auto)]

mod building;
mod clusters;
mod corners;
mod cutting;
mod done_groups;
pub mod laws;
mod level_clusters;
mod members;
mod numbering;
mod outcomes;
#[cfg(test)]
mod tests;

pub use building::build_dag;
