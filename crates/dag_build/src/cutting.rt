ghost use Rattle.std.specs.Prelude.{◌≡◌, ◌≤◌, ◌<◌, ◌++◌, OnOk, IfOk, Some, List, length, map, All};
ghost use Rattle.geom_core.specs.declared.limits.TheConstants.{MAX_TRIANGLES, TRIANGLES_PER_CLUSTER};
ghost use Rattle.geom_core.specs.declared.triangles.Tagged.{Tagged};
ghost use Rattle.geom_core.specs.Limits.{AreGridTriangles, IsGridTriangle};
ghost use Rattle.geom_core.specs.TaggedLists.{tris_of};
ghost use Rattle.partition.specs.Batches.{pick};
ghost use Rattle.dag_build.specs.Grouping.{AreCut, no_triangle};
ghost use Rattle.dag_build.specs.Levels.{numbered, source_cluster};
ghost use Rattle.dag_build.specs.Internal.Clusters.{made_cluster};

use crate::clusters::Cluster;
use crate::corners::plain_tris;
use crate::level_clusters::Maker;
use geom_core::{Memory, Nums, Tagged, Tri};
use partition::cut_clusters;
use std::alloc::Global;

/// Returns the clusters of level 0: those of a mesh's triangles.
pub(crate) fn cut_sources(alloc: Global, tris: Vec<Tri>) -> Result<Vec<Cluster>, Memory>
    requires triangles { AreGridTriangles tris.items }
    ensures clusters { IfOk result (λ clusters. (leaves : List (List Tagged))
        × AreCut TRIANGLES_PER_CLUSTER (numbered 0 tris.items) leaves
        × (clusters.items ≡ map source_cluster leaves)) }
{
    let batches = cut_clusters(alloc, &tris)?;
    let tagged = number_sources(alloc, tris)?;
    let mut clusters = Vec::with_capacity(alloc, batches.len())?;
    push_clusters(alloc, &mut clusters, &tagged, &batches, None)?;
    Ok(clusters)
}

/// Appends the clusters that a group makes of what is left of its members' triangles.
pub(crate) fn push_made(
    alloc: Global,
    clusters: &mut Vec<Cluster>,
    left: &[Tagged],
    maker: Maker,
) -> Result<(), Memory>
    requires triangle_limit { length left.now ≤ MAX_TRIANGLES }
    requires triangles { All IsGridTriangle (tris_of left.now) }
    ensures clusters { OnOk result ((made : List (List Tagged))
        × AreCut TRIANGLES_PER_CLUSTER left.now made
        × (clusters.new.items ≡ clusters.old.items ++ map (made_cluster (Some maker)) made)) }
{
    let plain = plain_tris(alloc, left)?;
    let batches = cut_clusters(alloc, &plain)?;
    push_clusters(alloc, clusters, left, &batches, Some(maker))
}

/// Returns the triangles with their numbers, counted from 0, as sources.
fn number_sources(alloc: Global, tris: Vec<Tri>) -> Result<Vec<Tagged>, Memory>
    requires triangle_limit { length tris.items ≤ MAX_TRIANGLES }
    ensures triangles { IfOk result (λ tagged. tagged.items ≡ numbered 0 tris.items) }
{
    let mut tagged = Vec::with_capacity(alloc, tris.len())?;
    for (source, tri) in tris.iter().enumerate() {
        tagged.push(Tagged {
            tri: *tri,
            source: source as u32,
        })?;
    }
    Ok(tagged)
}

/// Appends the cluster of each batch of triangles.
fn push_clusters(
    alloc: Global,
    clusters: &mut Vec<Cluster>,
    tris: &[Tagged],
    batches: &[Nums],
    maker: Option<Maker>,
) -> Result<(), Memory>
    requires number_range { All (λ batch. All (λ number. number < length tris.now) batch) batches.now }
    requires size_limit { All (λ batch. length batch ≤ TRIANGLES_PER_CLUSTER) batches.now }
    requires triangles { All IsGridTriangle (tris_of tris.now) }
    ensures clusters { OnOk result (clusters.new.items
        ≡ clusters.old.items
        ++ map (made_cluster maker) (map (pick tris.now no_triangle) batches.now)) }
{
    for batch in batches {
        let picked = pick_triangles(alloc, tris, batch.as_slice())?;
        let cluster = Cluster::new(alloc, picked, maker)?;
        clusters.push(cluster)?;
    }
    Ok(())
}

/// Returns the triangles of these numbers.
fn pick_triangles(alloc: Global, tris: &[Tagged], numbers: &[u32]) -> Result<Vec<Tagged>, Memory>
    requires number_range { All (λ number. number < length tris.now) numbers.now }
    ensures triangles { IfOk result (λ picked.
        picked.items ≡ pick tris.now no_triangle numbers.now) }
{
    let mut picked = Vec::with_capacity(alloc, numbers.len())?;
    for number in numbers {
        picked.push(tris[*number as usize])?;
    }
    Ok(picked)
}
