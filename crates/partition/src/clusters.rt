ghost use Rattle.std.specs.Prelude.{◌≡◌, ◌≤◌, ◌<◌, ◌++◌, IfOk, OnOk, All, length, map};
ghost use Rattle.geom_core.specs.declared.limits.TheConstants.{MAX_TRIANGLES};
ghost use Rattle.geom_core.specs.Limits.{HasGridCorners};
ghost use Rattle.geom_core.specs.EdgeSum.{edges_of};
ghost use Rattle.partition.specs.Internal.EdgeUses.{in_order, uses_from, uses_of};
ghost use Rattle.partition.specs.Clusters.{AreClusters, triangle_key};

use crate::batches::grow_batches;
use crate::edge_uses::{EdgeUse, use_between};
use crate::keys::{low_between, morton};
use crate::ranking::ranking;
use geom_core::limits::TRIANGLES_PER_CLUSTER;
use geom_core::{Memory, Nums, Tri};
use std::alloc::Global;

/// Returns the clusters of the triangles: for each cluster the numbers of its triangles, counted from 0, in the
/// order in which they were placed. Each cluster but the last has `TRIANGLES_PER_CLUSTER` triangles.
///
/// Greedy graph growing in Morton order: triangles are neighbours if they share an edge in either direction,
/// and rank by the Morton key of the low corner of their box, then by number. Two corners of a triangle may
/// be one point. That a cluster is connected is not promised.
pub fn cut_clusters(alloc: Global, tris: &[Tri]) -> Result<Vec<Nums>, Memory>
    requires triangle_limit { length tris.now ≤ MAX_TRIANGLES }
    requires corner_range { All HasGridCorners tris.now }
    ensures { IfOk result (λ clusters. AreClusters tris.now clusters.items) }
{
    let keys = triangle_keys(alloc, tris)?;
    let order = ranking(alloc, &keys)?;
    let uses = triangle_uses(alloc, tris, &order)?;
    grow_batches(alloc, &order, uses, TRIANGLES_PER_CLUSTER)
}

/// The Morton keys of the triangles, by number.
fn triangle_keys(alloc: Global, tris: &[Tri]) -> Result<Vec<u64>, Memory>
    requires { All HasGridCorners tris.now }
    ensures { IfOk result (λ keys. keys.items ≡ map triangle_key tris.now) }
{
    let mut keys = Vec::with_capacity(alloc, tris.len())?;
    for t in tris {
        keys.push(triangle_key(*t))?;
    }
    Ok(keys)
}

/// The Morton key of a triangle: that of the low corner of its box.
fn triangle_key(t: Tri) -> u64
    requires { HasGridCorners t }
    ensures { result ≡ triangle_key t }
{
    morton(low_between(low_between(t.a, t.b), t.c))
}

/// The uses of the three edges of each triangle, in the order of ranks.
fn triangle_uses(alloc: Global, tris: &[Tri], order: &[u32]) -> Result<Vec<EdgeUse>, Memory>
    requires corner_range { All HasGridCorners tris.now }
    requires item_limit { length order.now ≤ MAX_TRIANGLES }
    requires number_range { All (λ number. number < length tris.now) order.now }
    ensures { IfOk result (λ uses.
        uses.items ≡ uses_from 0 (in_order (map edges_of tris.now) order.now)) }
{
    let mut uses = Vec::with_capacity(alloc, 3 * order.len())?;
    for (place, number) in order.iter().enumerate() {
        push_uses(&mut uses, tris[*number as usize], place as u32)?;
    }
    Ok(uses)
}

/// Appends the uses of the three edges of a triangle of this rank.
fn push_uses(uses: &mut Vec<EdgeUse>, t: Tri, rank: u32) -> Result<(), Memory>
    requires { HasGridCorners t }
    ensures { OnOk result (uses.new.items ≡ uses.old.items ++ uses_of rank (edges_of t)) }
{
    uses.push(use_between(t.a, t.b, rank))?;
    uses.push(use_between(t.b, t.c, rank))?;
    uses.push(use_between(t.c, t.a, rank))?;
    Ok(())
}
