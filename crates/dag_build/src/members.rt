ghost use Rattle.std.specs.Prelude.{◌≡◌, ◌<◌, ◌++◌, OnOk, IfOk, List, ℕ, length, All};
ghost use Rattle.partition.specs.Batches.{pick};
ghost use Rattle.partition.specs.Groups.{IsGridShape};
ghost use Rattle.dag_build.specs.declared.level_clusters.LevelCluster.{LevelCluster};
ghost use Rattle.dag_build.specs.Grouping.{AreShapesOf, no_cluster};
ghost use Rattle.dag_build.specs.Internal.Taking.{AreFresh, AreLeft};

use crate::clusters::Cluster;
use crate::level_clusters::LevelCluster;
use geom_core::Memory;
use partition::ClusterShape;
use std::alloc::Global;
use std::mem;

/// Returns what decides the groups of a level's clusters, for each cluster.
pub(crate) fn shapes_of(alloc: Global, clusters: &[Cluster]) -> Result<Vec<ClusterShape>, Memory>
    ensures shapes { IfOk result (λ shapes. AreShapesOf clusters.now shapes.items) }
    ensures shape_range { IfOk result (λ shapes. All IsGridShape shapes.items) }
    ensures count { IfOk result (λ shapes. length shapes.items ≡ length clusters.now) }
{
    let mut shapes = Vec::with_capacity(alloc, clusters.len())?;
    for cluster in clusters {
        let shape = cluster.shape(alloc)?;
        shapes.push(shape)?;
    }
    Ok(shapes)
}

/// Moves the clusters of these numbers out of their slots, which then hold clusters with no triangle.
pub(crate) fn take_members(
    alloc: Global,
    slots: &mut Vec<Cluster>,
    numbers: &[u32],
) -> Result<Vec<Cluster>, Memory>
    requires number_range { All (λ number. number < length slots.old.items) numbers.now }
    ensures members { IfOk result (λ members. (clusters : List LevelCluster) (taken : List ℕ) →
        AreLeft clusters taken slots.old.items → AreFresh taken numbers.now →
        members.items ≡ pick clusters no_cluster numbers.now) }
    ensures slots { OnOk result ((clusters : List LevelCluster) (taken : List ℕ) →
        AreLeft clusters taken slots.old.items →
        AreLeft clusters (taken ++ numbers.now) slots.new.items) }
{
    let mut members = Vec::with_capacity(alloc, numbers.len())?;
    for number in numbers {
        let nothing = Cluster::empty(alloc)?;
        let member = mem::replace(&mut slots[*number as usize], nothing);
        members.push(member)?;
    }
    Ok(members)
}

/// Returns the clusters, without what decides their groups.
pub(crate) fn into_level_clusters(
    alloc: Global,
    members: Vec<Cluster>,
) -> Result<Vec<LevelCluster>, Memory>
    ensures clusters { IfOk result (λ clusters. clusters.items ≡ members.items) }
{
    let mut clusters = Vec::with_capacity(alloc, members.len())?;
    for member in members {
        clusters.push(member.into_level_cluster())?;
    }
    Ok(clusters)
}
