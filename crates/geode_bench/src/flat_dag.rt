ghost use Rattle.std.specs.Prelude.{◌≡◌, All, IfOk, length, map};
ghost use Rattle.dag_core.specs.Triangles.{HasTris};
ghost use Rattle.dag_core.specs.TriangleRules.{IsSourcedTriangle};

use dag_core::{ClusterHead, ClusterHeads, ClusterTris, Dag, Group, Groups, Heads};
use geom_core::limits::PAGE_TRIANGLES;
use geom_core::{Cube, Memory, Pt, Tagged, TaggedTris, Tri};
use std::alloc::Global;

/// How many pages a DAG has, and how many triangles each of its clusters.
#[derive(Clone, Copy, Debug, PartialEq, Eq)]
pub struct Layout {
    /// The number of pages.
    pub pages: u32,
    /// The triangles of a cluster. A page has as many such clusters as it can store.
    pub size: u32,
}

/// Returns a DAG of one level: each group is terminal and has one leaf, and all pages are root pages.
pub fn flat_dag(alloc: Global, layout: Layout) -> Result<Dag, Memory>
    ensures counts { IfOk result HasTris }
    ensures triangles { IfOk result (λ dag.
        All (All (IsSourcedTriangle dag.heads.sources)) dag.tris) }
{
    let groups = groups_of(alloc, layout)?;
    let leaf = ClusterHead {
        made: None,
        tris: layout.size,
    };
    let clusters = vec![in alloc; leaf; groups.len()]?;
    let tris = tris_for(alloc, &clusters)?;
    Ok(Dag {
        heads: Heads {
            groups: Groups::of(groups),
            clusters: ClusterHeads::of(clusters),
            pages: layout.pages,
            roots: layout.pages,
            sources: 1,
        },
        tris: ClusterTris::of(tris),
    })
}

/// Returns the groups, page by page.
fn groups_of(alloc: Global, layout: Layout) -> Result<Vec<Group>, Memory> {
    let mut groups = Vec::new(alloc);
    let mut first = 0u32;
    for page in 0..layout.pages {
        for _ in 0..PAGE_TRIANGLES / layout.size.max(1) {
            groups.push(group(page, first))?;
            first = first.saturating_add(1);
        }
    }
    Ok(groups)
}

/// Returns the group of one cluster on this page.
fn group(page: u32, first: u32) -> Group {
    let origin = Pt { x: 0, y: 0, z: 0 };
    Group {
        error: 0,
        terminal: true,
        cube: Cube {
            lo: origin,
            hi: origin,
        },
        page,
        first,
        count: 1,
    }
}

/// Returns the triangles of clusters that have these heads.
fn tris_for(alloc: Global, clusters: &[ClusterHead]) -> Result<Vec<TaggedTris>, Memory>
    ensures counts { IfOk result (λ tris. map (λ members. length members) tris.items
        ≡ map (λ cluster. cluster.tris) clusters.now) }
    ensures triangles { IfOk result (λ tris. All (All (IsSourcedTriangle 1)) tris.items) }
{
    let mut tris = Vec::with_capacity(alloc, clusters.len())?;
    'clusters: for cluster in clusters {
        tris.push(triangles(alloc, cluster.tris)?)?;
    }
    Ok(tris)
}

/// Returns this number of triangles of the one source.
fn triangles(alloc: Global, size: u32) -> Result<TaggedTris, Memory>
    ensures count { IfOk result (λ tris. length tris ≡ size) }
    ensures triangles { IfOk result (All (IsSourcedTriangle 1)) }
{
    let tris = vec![in alloc; triangle(); size as usize]?;
    Ok(TaggedTris::of(tris))
}

/// Returns a triangle of the one source.
#[tactic(auto, unfolding(geom_core::specs::Limits::has_distinct_corners))]
fn triangle() -> Tagged
    ensures triangle { IsSourcedTriangle 1 result }
{
    let tri = Tri {
        a: Pt { x: 0, y: 0, z: 0 },
        b: Pt { x: 8, y: 0, z: 0 },
        c: Pt { x: 0, y: 8, z: 0 },
    };
    Tagged { tri, source: 0 }
}
