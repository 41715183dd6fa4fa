ghost use Rattle.std.specs.Prelude.{◌≤◌, IfOk, All, length};
ghost use Rattle.geom_core.specs.declared.limits.TheConstants.{TRIANGLES_PER_GROUP};
ghost use Rattle.geom_core.specs.Limits.{AreGridTriangles, IsGridPoint, IsGridTriangle};
ghost use Rattle.geom_core.specs.TaggedLists.{tris_of};
ghost use Rattle.partition.specs.Groups.{IsGridEdge, IsGridShape};

use geom_core::limits::{MAX_TRIANGLES, TRIANGLES_PER_GROUP};
use geom_core::{Memory, Nums, Pt, Tagged, Tri};
use half_mesh::{Edge, Rim};
use partition::{ClusterShape, Edges, cut_clusters, cut_groups};
use std::alloc::Global;

/// The clusters of a mesh, and the groups of these clusters.
#[derive(Debug, Drop)]
pub struct FirstLevel {
    /// The numbers of each cluster's triangles.
    pub clusters: Vec<Nums>,
    /// The numbers of each group's clusters.
    pub groups: Vec<Nums>,
}

/// Cuts the triangles into clusters, and these into groups.
pub fn cut_level(alloc: Global, tris: &[Tri]) -> Result<FirstLevel, Memory>
    requires mesh { AreGridTriangles tris.now }
{
    let clusters = cut_clusters(alloc, tris)?;
    let shapes = shapes_of(alloc, tris, &clusters)?;
    // a cluster has a triangle or more, so no shape is left out
    let first_shapes = &shapes[..shapes.len().min(MAX_TRIANGLES as usize)];
    let groups = cut_groups(alloc, first_shapes)?;
    Ok(FirstLevel { clusters, groups })
}

/// Returns the shape of each cluster.
fn shapes_of(alloc: Global, tris: &[Tri], clusters: &[Nums]) -> Result<Vec<ClusterShape>, Memory>
    ensures shapes { IfOk result (λ shapes. All IsGridShape shapes.items) }
{
    let mut shapes = Vec::with_capacity(alloc, clusters.len())?;
    for cluster in clusters {
        let members = gathered(alloc, tris, cluster.as_slice())?;
        let shape = shape_of(alloc, &members)?;
        shapes.push(shape)?;
    }
    Ok(shapes)
}

/// Returns the shape of a cluster with these triangles.
fn shape_of(alloc: Global, members: &[Tagged]) -> Result<ClusterShape, Memory>
    ensures shape { IfOk result IsGridShape }
{
    let rim = rim_of(alloc, members)?;
    let edges = edges_in_grid(alloc, &rim)?;
    Ok(ClusterShape {
        low: low_corner(members),
        rim: Edges::of(edges),
    })
}

/// Returns the edges of a rim, all of which are edges of a mesh.
fn edges_in_grid(alloc: Global, rim: &Rim) -> Result<Vec<Edge>, Memory>
    ensures edges { IfOk result (λ edges. All IsGridEdge edges.items) }
{
    let mut edges = Vec::new(alloc);
    for edge in rim.edges() {
        if edge.u.is_grid_point() && edge.v.is_grid_point() {
            edges.push(*edge)?;
        }
    }
    Ok(edges)
}

/// Returns the corner of least x, y and z of the triangles' box; the origin if there is no triangle.
fn low_corner(members: &[Tagged]) -> Pt
    ensures low { IsGridPoint result }
{
    let mut low = Pt {
        x: i32::MAX,
        y: i32::MAX,
        z: i32::MAX,
    };
    for member in members {
        low = low_of(
            low_of(low, member.tri.a),
            low_of(member.tri.b, member.tri.c),
        );
    }
    if low.is_grid_point() {
        return low;
    }
    Pt { x: 0, y: 0, z: 0 }
}

/// Returns the lesser coordinates of both points.
fn low_of(p: Pt, q: Pt) -> Pt {
    Pt {
        x: p.x.min(q.x),
        y: p.y.min(q.y),
        z: p.z.min(q.z),
    }
}

/// Returns the rim of the triangles, of which a group has no more than `TRIANGLES_PER_GROUP`.
pub fn rim_of(alloc: Global, members: &[Tagged]) -> Result<Rim, Memory> {
    let mut tris = Vec::with_capacity(alloc, members.len())?;
    for member in members {
        tris.push(member.tri)?;
    }
    let group = &tris[..tris.len().min(TRIANGLES_PER_GROUP as usize)];
    let rim = Rim::of(alloc, group)?;
    Ok(rim)
}

/// Returns the triangles of these numbers, each with its number, but no more of them than a group can have.
pub fn gathered(alloc: Global, tris: &[Tri], numbers: &[u32]) -> Result<Vec<Tagged>, Memory>
    ensures triangle_limit { IfOk result (λ listed. length listed.items ≤ TRIANGLES_PER_GROUP) }
    ensures triangles { IfOk result (λ listed. All IsGridTriangle (tris_of listed.items)) }
{
    let mut listed = Vec::new(alloc);
    for number in numbers {
        let Some(tri) = tris.get(*number as usize) else {
            continue;
        };
        if listed.len() < TRIANGLES_PER_GROUP as usize && tri.is_grid_triangle() {
            listed.push(Tagged {
                tri: *tri,
                source: *number,
            })?;
        }
    }
    Ok(listed)
}
