//! Whether the triangles of a laid-out DAG keep their rules: 6 edge sums, 7 sources, 8 corners.
//!
//! With the rules of its heads, which `dag_core` checks, these make a DAG sound: each of its levels of detail then has
//! the edge sums of the source mesh, so no crack opens between groups, and lies within its stated errors of it.
//!
//! The rules are `dag_core`'s `specs/TriangleRules.antt`; the first break is `specs/FirstBreaks.antt`. Edge sums are
//! compared as rims (`half_mesh`): the rim of each cluster is made once, and those of a group are joined.
//!
//! On `Memory` nothing is kept.
#![tactic(auto)]

mod check;
mod edge_sums;
mod faults;
mod leaf_places;
mod made_index;
#[cfg(test)]
mod tests;

pub use check::check_triangles;
pub use faults::{RuleBreak, TriangleFault};
