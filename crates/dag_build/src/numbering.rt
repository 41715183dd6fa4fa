ghost use Rattle.std.specs.Prelude.{◌≡◌, [], ◌∷◌, ◌≤◌, ◌<◌, ◌+◌, ◌++◌, OnOk, IfOk, length, map, All};
ghost use Rattle.geom_core.specs.declared.limits.TheConstants.{MAX_CLUSTERS, MAX_GROUPS};
ghost use Rattle.dag_build.specs.Numbers.{dag_from, dag_of, group_head, head_of, heads_from, maker_number, members_in};
ghost use Rattle.dag_build.specs.Internal.DoneLevels.{AreFewLevels, HasProper, IsPlaced, IsProper};

use crate::done_groups::DoneGroup;
use crate::level_clusters::{LevelCluster, Maker};
use dag_core::{ClusterHead, ClusterHeads, ClusterTris, Dag, Group, Groups, Heads};
use geom_core::{Memory, TaggedTris};
use std::alloc::Global;

/// The groups and clusters that have numbers already; a number is a place.
#[derive(Drop)]
struct Numbered {
    /// The groups, by number.
    groups: Vec<Group>,
    /// The clusters, by number.
    clusters: Vec<ClusterHead>,
    /// The triangles of each cluster.
    tris: Vec<TaggedTris>,
}

/// Numbers the groups and clusters of all levels, from the last level to level 0.
pub(crate) fn number_levels(
    alloc: Global,
    sources: u32,
    levels: Vec<Vec<DoneGroup>>,
) -> Result<Dag, Memory>
    requires levels { AreFewLevels (map (λ level. level.items) levels.items) }
    ensures dag { IfOk result (λ dag.
        dag ≡ dag_of sources (map (λ level. level.items) levels.items)) }
{
    let mut levels = levels;
    let mut numbered = Numbered {
        groups: Vec::new(alloc),
        clusters: Vec::new(alloc),
        tris: Vec::new(alloc),
    };
    'levels: while let Some(level) = levels.pop() {
        numbered.push_level(level)?;
    }
    Ok(numbered.into_dag(sources))
}

/// The number of a maker's group, of a level whose groups are numbered from `base` on.
fn maker_number(base: u32, maker: Option<Maker>) -> Option<u32>
    requires group_limit { base ≤ MAX_GROUPS }
    requires placed { IsPlaced maker }
    ensures number { result ≡ maker_number base maker }
{
    match maker {
        None => None,
        Some(maker) => Some(base + maker.group),
    }
}

impl Numbered {
    /// Returns the DAG of these groups and clusters, all on one page.
    fn into_dag(self, sources: u32) -> Dag
        ensures dag { result
            ≡ dag_from sources self.groups.items self.clusters.items self.tris.items }
    {
        let Numbered {
            groups,
            clusters,
            tris,
        } = self;
        let heads = Heads {
            groups: Groups::of(groups),
            clusters: ClusterHeads::of(clusters),
            pages: 1,
            roots: 1,
            sources,
        };
        Dag {
            heads,
            tris: ClusterTris::of(tris),
        }
    }

    /// Numbers the groups of a level, whose makers' level is the one that is numbered next.
    fn push_level(&mut self, level: Vec<DoneGroup>) -> Result<(), Memory>
        requires group_limit { length self.old.groups.items + length level.items ≤ MAX_GROUPS }
        requires cluster_limit { length self.old.clusters.items + length (members_in level.items)
            ≤ MAX_CLUSTERS }
        requires members { All HasProper level.items }
        ensures groups { OnOk result (self.new.groups.items ≡ self.old.groups.items
            ++ heads_from (length self.old.clusters.items) level.items) }
        ensures clusters { OnOk result (self.new.clusters.items ≡ self.old.clusters.items
            ++ map (head_of (length self.old.groups.items + length level.items))
            (members_in level.items)) }
        ensures triangles { OnOk result (self.new.tris.items ≡ self.old.tris.items
            ++ map (λ cluster. cluster.tris) (members_in level.items)) }
    {
        let base = (self.groups.len() + level.len()) as u32;
        for group in level {
            self.push_group(group, base)?;
        }
        Ok(())
    }

    /// Numbers a group and its members.
    fn push_group(&mut self, group: DoneGroup, base: u32) -> Result<(), Memory>
        requires group_limit { base ≤ MAX_GROUPS }
        requires cluster_limit { length self.old.clusters.items + length group.members
            ≤ MAX_CLUSTERS }
        requires members { HasProper group }
        ensures groups { OnOk result (self.new.groups.items ≡ self.old.groups.items
            ++ group_head (length self.old.clusters.items) group ∷ []) }
        ensures clusters { OnOk result (self.new.clusters.items
            ≡ self.old.clusters.items ++ map (head_of base) group.members) }
        ensures triangles { OnOk result (self.new.tris.items
            ≡ self.old.tris.items ++ map (λ cluster. cluster.tris) group.members) }
    {
        let DoneGroup {
            members,
            error,
            terminal,
            cube,
        } = group;
        self.groups.push(Group {
            error,
            terminal,
            cube,
            page: 0,
            first: self.clusters.len() as u32,
            count: members.len() as u32,
        })?;
        for member in members {
            self.push_cluster(member, base)?;
        }
        Ok(())
    }

    /// Numbers a cluster.
    fn push_cluster(&mut self, member: LevelCluster, base: u32) -> Result<(), Memory>
        requires group_limit { base ≤ MAX_GROUPS }
        requires member { IsProper member }
        ensures groups { self.new.groups ≡ self.old.groups }
        ensures clusters { OnOk result (self.new.clusters.items
            ≡ self.old.clusters.items ++ head_of base member ∷ []) }
        ensures triangles { OnOk result (self.new.tris.items
            ≡ self.old.tris.items ++ member.tris ∷ []) }
    {
        let LevelCluster { tris, maker } = member;
        self.clusters.push(ClusterHead {
            made: maker_number(base, maker),
            tris: tris.as_slice().len() as u32,
        })?;
        self.tris.push(tris)?;
        Ok(())
    }
}
