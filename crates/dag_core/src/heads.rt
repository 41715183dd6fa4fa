ghost use Rattle.std.specs.Prelude.{◌≡◌, ◌<◌, ◌≤◌, ◌^◌, length};
ghost use Rattle.dag_core.specs.Members.{cluster_at, group_at, home};
ghost use Rattle.dag_core.specs.Ranges.{IsInRange, counts_of};
ghost use Rattle.dag_core.specs.Rules.{Checked};

use crate::cluster_heads::{ClusterHead, ClusterHeads};
use crate::counts::Counts;
use crate::groups::{Group, Groups};

/// A DAG without its triangles. It decides which clusters are drawn and which pages are needed.
///
/// The ranges and rules are those of `check`; the type itself keeps none of them.
#[derive(Debug, Drop, PartialEq, Eq)]
pub struct Heads {
    /// The groups, by number.
    pub groups: Groups,
    /// The clusters, by number: those of group 0, then those of group 1, and so on.
    pub clusters: ClusterHeads,
    /// The number of pages: 1 to `MAX_PAGES`.
    pub pages: u32,
    /// The number of root pages, 1 to `pages`. The pages below this number are the root pages, which are always
    /// resident.
    pub roots: u32,
    /// The number of source triangles: 1 to `MAX_TRIANGLES`.
    pub sources: u32,
}

impl Heads {
    /// Returns the counts, without allocating.
    pub fn counts(&self) -> Counts
        requires group_limit { length self.now.groups < 2 ^ 32 }
        requires cluster_limit { length self.now.clusters < 2 ^ 32 }
        ensures counts { result ≡ counts_of self.now }
    {
        Counts {
            groups: self.groups.as_slice().len() as u32,
            clusters: self.clusters.as_slice().len() as u32,
            pages: self.pages,
            roots: self.roots,
            sources: self.sources,
        }
    }

    /// Returns the group that a cluster is a member of, by its number, without allocating. The group is found by
    /// halving.
    pub fn home(&self, c: u32) -> u32
        requires range { IsInRange self.now }
        requires checked { Checked self.now }
        requires cluster { c < length self.now.clusters }
        ensures home { result ≡ home self.now c }
        ensures group_range { result < length self.now.groups }
    {
        let after = self
            .groups
            .as_slice()
            .partition_point(|group| group.first <= c);
        after as u32 - 1
    }

    /// Returns the group of this number.
    pub(crate) fn group(&self, g: usize) -> Group
        requires group { g < length self.now.groups }
        ensures group { result ≡ group_at self.now g }
    {
        self.groups.as_slice()[g]
    }

    /// Returns the head of the cluster of this number.
    pub(crate) fn cluster(&self, c: usize) -> ClusterHead
        requires cluster { c < length self.now.clusters }
        ensures cluster { result ≡ cluster_at self.now c }
    {
        self.clusters.as_slice()[c]
    }
}
