ghost use Rattle.std.specs.Prelude.{◌≡◌, ◌≤◌, ◌<◌, ◌+◌, All, IfOk, length, map};
ghost use Rattle.std.specs.List.{find, range_with_len};
ghost use Rattle.geom_core.specs.declared.limits.TheConstants.{MAX_CLUSTERS, TRIANGLES_PER_CLUSTER};
ghost use Rattle.geom_core.specs.TaggedLists.{tris_of};
ghost use Rattle.dag_core.specs.Members.{made_by, members};
ghost use Rattle.dag_core.specs.TriangleRules.{IsLaidOut, breaks_sums, have_same_sums};
ghost use Rattle.dag_core.specs.Triangles.{tris_in};
ghost use Rattle.half_mesh.specs.Rim.{AreRimsOf, IsRimOf};
ghost use Rattle.dag_soundness.specs.Internal.MadeLinks.{IsMadeIndexOf};

use crate::made_index::MadeIndex;
use dag_core::{Dag, Group};
use geom_core::{Memory, Tagged, TaggedTris, Tri};
use half_mesh::Rim;
use std::alloc::Global;

/// Returns the triangles without their sources.
fn plain_tris(alloc: Global, tagged: &[Tagged]) -> Result<Vec<Tri>, Memory>
    ensures triangles { IfOk result (λ tris. tris.items ≡ tris_of tagged.now) }
{
    let mut tris = Vec::with_capacity(alloc, tagged.len())?;
    for t in tagged {
        tris.push(t.tri)?;
    }
    Ok(tris)
}

/// Returns the rim of each cluster, by its number.
fn cluster_rims(alloc: Global, lists: &[TaggedTris]) -> Result<Vec<Rim>, Memory>
    requires triangle_limit { All (λ tris. length tris ≤ TRIANGLES_PER_CLUSTER) lists.now }
    ensures rims { IfOk result (λ rims. AreRimsOf (map tris_of lists.now) rims.items) }
{
    let mut rims = Vec::with_capacity(alloc, lists.len())?;
    'clusters: for tagged in lists {
        let tris = plain_tris(alloc, tagged.as_slice())?;
        rims.push(Rim::of(alloc, &tris)?)?;
    }
    Ok(rims)
}

/// Returns the rim of the triangles of these clusters together, from the clusters' own.
fn joined_rim(alloc: Global, dag: &Dag, rims: &[Rim], clusters: &[u32]) -> Result<Rim, Memory>
    requires laid_out { IsLaidOut dag.now }
    requires rims { AreRimsOf (map tris_of dag.now.tris) rims.now }
    requires cluster_range { All (λ c. c < length dag.now.tris) clusters.now }
    requires cluster_limit { length clusters.now ≤ MAX_CLUSTERS }
    ensures rim { IfOk result (λ rim.
        IsRimOf (tris_of (tris_in dag.now clusters.now)) rim.edges rim.sums) }
{
    let mut parts = Vec::with_capacity(alloc, clusters.len())?;
    'clusters: for cluster in clusters {
        parts.push(&rims[*cluster as usize])?;
    }
    Ok(Rim::joined(alloc, &parts)?)
}

/// Returns the numbers of a group's members.
fn member_numbers(alloc: Global, group: &Group) -> Result<Vec<u32>, Memory>
    requires range { group.now.first + group.now.count ≤ MAX_CLUSTERS }
    ensures members { IfOk result (λ numbers. numbers.items
        ≡ range_with_len group.now.first group.now.count) }
{
    let mut numbers = Vec::with_capacity(alloc, group.count as usize)?;
    'members: for k in 0..group.count {
        numbers.push(group.first + k)?;
    }
    Ok(numbers)
}

/// Whether a group's members and the clusters that it made have the same edge sums.
fn has_same_sums(
    alloc: Global,
    dag: &Dag,
    index: &MadeIndex,
    rims: &[Rim],
    g: u32,
) -> Result<bool, Memory>
    requires laid_out { IsLaidOut dag.now }
    requires index { IsMadeIndexOf dag.now.heads index.now }
    requires rims { AreRimsOf (map tris_of dag.now.tris) rims.now }
    requires group_range { g < length dag.now.heads.groups }
    ensures sums { IfOk result (λ same. same ≡ have_same_sums
        (tris_of (tris_in dag.now (members dag.now.heads g)))
        (tris_of (tris_in dag.now (made_by dag.now.heads g)))) }
{
    let members = member_numbers(alloc, &dag.heads.groups.as_slice()[g as usize])?;
    let made = index.made_by(alloc, &dag.heads, g)?;
    let fine = joined_rim(alloc, dag, rims, &members)?;
    let coarse = joined_rim(alloc, dag, rims, &made)?;
    Ok(fine.has_same(&coarse))
}

/// Whether a group breaks rule 6: it isn't terminal, and its members and what it made differ in an edge sum.
#[tactic(auto, using(crate::proofs::PartLaws::sums_terminal, crate::proofs::PartLaws::sums_open))]
fn breaks_sums(
    alloc: Global,
    dag: &Dag,
    index: &MadeIndex,
    rims: &[Rim],
    g: u32,
) -> Result<bool, Memory>
    requires laid_out { IsLaidOut dag.now }
    requires index { IsMadeIndexOf dag.now.heads index.now }
    requires rims { AreRimsOf (map tris_of dag.now.tris) rims.now }
    requires group_range { g < length dag.now.heads.groups }
    ensures broken { IfOk result (λ broken. broken ≡ breaks_sums dag.now g) }
{
    if dag.heads.groups.as_slice()[g as usize].terminal {
        return Ok(false);
    }
    let same = has_same_sums(alloc, dag, index, rims, g)?;
    Ok(!same)
}

/// Returns the first group that breaks rule 6.
pub(crate) fn first_sums_break(alloc: Global, dag: &Dag) -> Result<Option<u32>, Memory>
    requires laid_out { IsLaidOut dag.now }
    ensures group { IfOk result (λ group. group
        ≡ find (breaks_sums dag.now) (range_with_len 0 (length dag.now.heads.groups))) }
{
    let index = MadeIndex::of(alloc, &dag.heads)?;
    let rims = cluster_rims(alloc, dag.tris.as_slice())?;
    'groups: for g in 0..dag.heads.groups.as_slice().len() as u32 {
        if breaks_sums(alloc, dag, &index, &rims, g)? {
            return Ok(Some(g));
        }
    }
    Ok(None)
}
