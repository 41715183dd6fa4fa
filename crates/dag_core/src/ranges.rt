ghost use Rattle.std.specs.Prelude.{◌≡◌, ◌↔◌, IsTrue};
ghost use Rattle.std.specs.List.{list_all};
ghost use Rattle.geom_core.specs.Boxes.{is_under};
ghost use Rattle.dag_core.specs.Ranges.{IsInRange, are_members, counts_of, is_count_to, is_group_box, is_group_or_none};
ghost use Rattle.dag_core.specs.Internal.RangeTests.{are_counts_in_range, is_cluster_in_range, is_group_in_range};

use crate::cluster_heads::ClusterHead;
use crate::counts::Counts;
use crate::groups::Group;
use crate::heads::Heads;
use geom_core::limits::{
    CLUSTERS_PER_GROUP, MAX_CLUSTERS, MAX_ERROR, MAX_GROUPS, MAX_PAGES, MAX_TRIANGLES,
    TRIANGLES_PER_CLUSTER,
};
use geom_core::{Cube, Pt};

impl Heads {
    /// Whether all numbers keep their ranges, as `check` requires. It says nothing of the rules.
    pub fn is_in_range(&self) -> bool
        ensures range { IsTrue result ↔ IsInRange self.now }
    {
        let groups = self.groups.as_slice();
        let clusters = self.clusters.as_slice();
        if groups.len() > MAX_GROUPS as usize || clusters.len() > MAX_CLUSTERS as usize {
            return false;
        }
        let counts = self.counts();
        if !are_counts_in_range(counts) {
            return false;
        }
        if !are_groups_in_range(counts, groups) {
            return false;
        }
        are_clusters_in_range(counts, clusters)
    }
}

/// Whether all counts keep their ranges.
#[tactic(auto, unfolding(crate::specs::Internal::RangeTests::are_counts_in_range))]
fn are_counts_in_range(counts: Counts) -> bool
    ensures counts { result ≡ are_counts_in_range counts }
{
    is_count_to(MAX_GROUPS, counts.groups)
        && is_count_to(MAX_CLUSTERS, counts.clusters)
        && is_count_to(MAX_PAGES, counts.pages)
        && is_count_to(counts.pages, counts.roots)
        && is_count_to(MAX_TRIANGLES, counts.sources)
}

/// Whether the numbers of each group keep their ranges.
fn are_groups_in_range(counts: Counts, groups: &[Group]) -> bool
    ensures groups { result ≡ list_all (is_group_in_range counts) groups.now }
{
    groups.iter().all(|group| is_group_in_range(counts, *group))
}

/// Whether the numbers of a group keep their ranges.
#[tactic(auto, unfolding(crate::specs::Internal::RangeTests::is_group_in_range))]
fn is_group_in_range(counts: Counts, group: Group) -> bool
    ensures group { result ≡ is_group_in_range counts group }
{
    group.error <= MAX_ERROR
        && is_group_box(group.cube)
        && group.page < counts.pages
        && are_members(counts, group.first, group.count)
}

/// Whether a group may have `count` members from `first` on.
fn are_members(counts: Counts, first: u32, count: u32) -> bool
    ensures members { result ≡ are_members counts first count }
{
    is_count_to(CLUSTERS_PER_GROUP, count) && first <= counts.clusters
}

/// Whether the numbers of each cluster keep their ranges.
fn are_clusters_in_range(counts: Counts, clusters: &[ClusterHead]) -> bool
    ensures clusters { result ≡ list_all (is_cluster_in_range counts) clusters.now }
{
    clusters
        .iter()
        .all(|cluster| is_cluster_in_range(counts, *cluster))
}

/// Whether the numbers of a cluster keep their ranges.
#[tactic(auto, unfolding(crate::specs::Internal::RangeTests::is_cluster_in_range))]
fn is_cluster_in_range(counts: Counts, cluster: ClusterHead) -> bool
    ensures cluster { result ≡ is_cluster_in_range counts cluster }
{
    is_count_to(TRIANGLES_PER_CLUSTER, cluster.tris) && is_group_or_none(counts, cluster.made)
}

/// Whether the maker is a group, or none.
fn is_group_or_none(counts: Counts, made: Option<u32>) -> bool
    ensures maker { result ≡ is_group_or_none counts made }
{
    match made {
        None => true,
        Some(made) => made < counts.groups,
    }
}

/// Whether a count is 1 to `most`.
fn is_count_to(most: u32, count: u32) -> bool
    ensures count { result ≡ is_count_to most count }
{
    1 <= count && count <= most
}

/// Whether a box may be that of a group.
fn is_group_box(cube: Cube) -> bool
    ensures cube { result ≡ is_group_box cube }
{
    cube.lo.is_grid_point() && cube.hi.is_grid_point() && is_under(cube.lo, cube.hi)
}

/// Whether p is at most q on each axis.
#[tactic(auto, unfolding(geom_core::specs::Boxes::is_under))]
fn is_under(p: Pt, q: Pt) -> bool
    ensures { result ≡ is_under p q }
{
    p.x <= q.x && p.y <= q.y && p.z <= q.z
}
