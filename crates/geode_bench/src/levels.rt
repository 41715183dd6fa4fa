ghost use Rattle.geom_core.specs.Limits.{AreGridTriangles};

use dag_build::build_dag;
use dag_core::{ClusterHead, Dag};
use geom_core::{Memory, Tri};
use std::alloc::Global;

/// What is counted of the DAG of a mesh's levels of detail.
#[derive(Clone, Copy, Debug, PartialEq, Eq)]
pub struct Counts {
    /// The groups of all levels.
    pub groups: usize,
    /// The clusters of all levels.
    pub clusters: usize,
    /// The triangles of all clusters.
    pub triangles: u64,
    /// The triangles of the members of terminal groups.
    pub terminal: u64,
    /// The greatest error of a group, in grid steps.
    pub error: u32,
}

/// Builds the levels of detail of a mesh, and counts what they have.
pub fn count_levels(alloc: Global, tris: Vec<Tri>) -> Result<Counts, Memory>
    requires mesh { AreGridTriangles tris.items }
{
    let dag = build_dag(alloc, tris)?;
    Ok(counts_of(&dag))
}

/// Counts what a DAG has; its clusters lie by group.
fn counts_of(dag: &Dag) -> Counts {
    let mut rest = dag.heads.clusters.as_slice();
    let mut counts = Counts {
        groups: dag.heads.groups.as_slice().len(),
        clusters: rest.len(),
        triangles: 0,
        terminal: 0,
        error: 0,
    };
    for group in dag.heads.groups.as_slice() {
        let (members, later) = rest.split_at(rest.len().min(group.count as usize));
        let triangles = triangles_of(members);
        counts.triangles = counts.triangles.saturating_add(triangles);
        if group.terminal {
            counts.terminal = counts.terminal.saturating_add(triangles);
        }
        counts.error = counts.error.max(group.error);
        rest = later;
    }
    counts
}

/// Returns how many triangles the clusters have.
fn triangles_of(clusters: &[ClusterHead]) -> u64 {
    let mut triangles = 0u64;
    for cluster in clusters {
        triangles = triangles.saturating_add(u64::from(cluster.tris));
    }
    triangles
}
