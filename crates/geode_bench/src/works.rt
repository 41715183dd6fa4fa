ghost use Rattle.geom_core.specs.Limits.{AreGridTriangles};

use geom_core::{Memory, Pt, Tri};
use half_mesh::{EdgeTable, Rim};
use partition::cut_clusters;
use std::alloc::Global;

/// A piece of work that can be timed.
#[derive(Clone, Copy, Debug, PartialEq, Eq)]
pub enum Work {
    /// Only the reading of the mesh.
    Read,
    /// Std's sort of the directed edges.
    Sort,
    /// The table of edges.
    Edges,
    /// The rim of all triangles.
    Rims,
    /// The rims of pieces of the list, joined by eights.
    JoinedRims,
    /// The triangles cut into clusters.
    Clusters,
    /// These clusters cut into groups.
    Groups,
    /// Each of these groups simplified once, with the points of its rim locked.
    Simplify,
    /// All levels of detail.
    Levels,
}

/// A piece of work, and how the mesh is read.
#[derive(Clone, Copy, Debug, PartialEq, Eq)]
pub struct Order {
    /// The work.
    pub work: Work,
    /// Grid steps per unit of the text.
    pub scale: u32,
}

impl Work {
    /// The work with this name.
    pub fn named(word: &str) -> Option<Work> {
        match word {
            "read" => Some(Work::Read),
            "sort" => Some(Work::Sort),
            "edges" => Some(Work::Edges),
            "rims" => Some(Work::Rims),
            "joined-rims" => Some(Work::JoinedRims),
            "clusters" => Some(Work::Clusters),
            "groups" => Some(Work::Groups),
            "simplify" => Some(Work::Simplify),
            "levels" => Some(Work::Levels),
            _ => None,
        }
    }
}

/// An edge of a triangle by its ends, ordered by `from`, then `to`.
#[derive(Clone, Copy, Debug, PartialEq, Eq, PartialOrd, Ord)]
struct Directed {
    /// Where it begins.
    from: Pt,
    /// Where it ends.
    to: Pt,
}

/// How many directed edges the triangles have, after sorting them.
pub fn sort_edges(alloc: Global, tris: &[Tri]) -> Result<usize, Memory>
    requires mesh { AreGridTriangles tris.now }
{
    let mut edges = Vec::with_capacity(alloc, 3 * tris.len())?;
    for tri in tris {
        edges.push(Directed {
            from: tri.a,
            to: tri.b,
        })?;
        edges.push(Directed {
            from: tri.b,
            to: tri.c,
        })?;
        edges.push(Directed {
            from: tri.c,
            to: tri.a,
        })?;
    }
    edges.sort()?;
    Ok(edges.len())
}

/// How many edges the rim has, and their sums' sizes added up.
pub fn count_edges(alloc: Global, tris: &[Tri]) -> Result<(usize, u64), Memory>
    requires mesh { AreGridTriangles tris.now }
{
    let table = EdgeTable::of(alloc, tris)?;
    let mut total = 0u64;
    for edge in table.rim() {
        let sum = table.sum_of(edge.u, edge.v);
        total = total.saturating_add(u64::from(sum.unsigned_abs()));
    }
    Ok((table.rim().len(), total))
}

/// How many edges the rim has, and their sums' sizes added up.
pub fn count_rim(alloc: Global, tris: &[Tri]) -> Result<(usize, u64), Memory>
    requires mesh { AreGridTriangles tris.now }
{
    let rim = Rim::of(alloc, tris)?;
    let mut total = 0u64;
    for sum in rim.sums() {
        total = total.saturating_add(u64::from(sum.unsigned_abs()));
    }
    Ok((rim.edges().len(), total))
}

/// How many clusters there are, and the sum of each triangle's number times its place, from 1.
pub fn count_clusters(alloc: Global, tris: &[Tri]) -> Result<(usize, u64), Memory>
    requires mesh { AreGridTriangles tris.now }
{
    let clusters = cut_clusters(alloc, tris)?;
    let mut place = 0u64;
    let mut sum = 0u64;
    for cluster in &clusters {
        for number in cluster.as_slice() {
            place = place.saturating_add(1);
            sum = sum.saturating_add(place.saturating_mul(u64::from(*number)));
        }
    }
    Ok((clusters.len(), sum))
}
