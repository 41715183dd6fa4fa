ghost use Rattle.std.specs.Prelude.{◌≡◌, ◌≤◌, ◌<◌, ◌++◌, IfOk, OnOk, All, length, map};
ghost use Rattle.geom_core.specs.declared.limits.TheConstants.{MAX_TRIANGLES};
ghost use Rattle.partition.specs.Groups.{AreGroups, IsGridEdge, IsGridShape, ends_of, rim_edges, shape_key};
ghost use Rattle.partition.specs.Internal.EdgeUses.{in_order, uses_from, uses_of};

use crate::batches::grow_batches;
use crate::edge_uses::{EdgeUse, use_between};
use crate::keys::morton;
use crate::ranking::ranking;
use crate::shapes::ClusterShape;
use geom_core::limits::CLUSTERS_PER_GROUP;
use geom_core::{Memory, Nums};
use half_mesh::Edge;
use std::alloc::Global;

/// Returns the groups of a level's clusters: for each group the numbers of its clusters, counted from 0, in the
/// order in which they were placed. Each group but the last has `CLUSTERS_PER_GROUP`
/// clusters.
///
/// Greedy graph growing in Morton order: clusters are neighbours if their rims share an edge in either
/// direction, and rank by the Morton key of the low corner of their box, then by number. That a group is
/// connected is not promised.
///
/// A cluster has at least one triangle, so a level has at most `MAX_TRIANGLES` clusters.
pub fn cut_groups(alloc: Global, shapes: &[ClusterShape]) -> Result<Vec<Nums>, Memory>
    requires cluster_limit { length shapes.now ≤ MAX_TRIANGLES }
    requires shape_range { All IsGridShape shapes.now }
    ensures { IfOk result (λ groups. AreGroups shapes.now groups.items) }
{
    let keys = shape_keys(alloc, shapes)?;
    let order = ranking(alloc, &keys)?;
    let uses = shape_uses(alloc, shapes, &order)?;
    grow_batches(alloc, &order, uses, CLUSTERS_PER_GROUP)
}

/// The Morton keys of the clusters, by number.
fn shape_keys(alloc: Global, shapes: &[ClusterShape]) -> Result<Vec<u64>, Memory>
    requires { All IsGridShape shapes.now }
    ensures { IfOk result (λ keys. keys.items ≡ map shape_key shapes.now) }
{
    let mut keys = Vec::with_capacity(alloc, shapes.len())?;
    for shape in shapes {
        keys.push(morton(shape.low))?;
    }
    Ok(keys)
}

/// The uses of the rim edges of each cluster, in the order of ranks.
fn shape_uses(alloc: Global, shapes: &[ClusterShape], order: &[u32]) -> Result<Vec<EdgeUse>, Memory>
    requires shape_range { All IsGridShape shapes.now }
    requires item_limit { length order.now ≤ MAX_TRIANGLES }
    requires number_range { All (λ number. number < length shapes.now) order.now }
    ensures { IfOk result (λ uses.
        uses.items ≡ uses_from 0 (in_order (map rim_edges shapes.now) order.now)) }
{
    let mut uses = Vec::new(alloc);
    for (place, number) in order.iter().enumerate() {
        push_rim(
            &mut uses,
            shapes[*number as usize].rim.as_slice(),
            place as u32,
        )?;
    }
    Ok(uses)
}

/// Appends the uses of the rim edges of a cluster of this rank.
fn push_rim(uses: &mut Vec<EdgeUse>, rim: &[Edge], rank: u32) -> Result<(), Memory>
    requires { All IsGridEdge rim.now }
    ensures { OnOk result (uses.new.items ≡ uses.old.items ++ uses_of rank (map ends_of rim.now)) }
{
    for edge in rim {
        uses.push(use_between(edge.u, edge.v, rank))?;
    }
    Ok(())
}
