ghost use Rattle.std.specs.Prelude.{◌≡◌, ◌<◌, ◌+◌, ◌^◌, ℕ, All, IfOk, Some, length, slice_index};
ghost use Rattle.std.specs.Prelude.{slice_index_or};
ghost use Rattle.dag_core.specs.declared.cluster_heads.ClusterHead.{ClusterHead};
ghost use Rattle.dag_core.specs.Members.{made_by};
ghost use Rattle.dag_core.specs.Ranges.{IsInRange};
ghost use Rattle.dag_soundness.specs.Internal.MadeLinks.{IsMadeIndexOf, next_made};

use dag_core::{ClusterHead, Heads};
use geom_core::Memory;
use std::alloc::Global;
use std::marker::Model;

/// The clusters that each group made: the first one of each group, and the next one after each cluster. Its memory is
/// four bytes a group and a cluster.
#[derive(Debug, Drop)]
pub(crate) struct MadeIndex {
    /// The first cluster that a group made, by the group's number; the number of clusters if there is none.
    firsts: Vec<u32>,
    /// The next cluster of a cluster's maker, by the cluster's number; the number of clusters if there is none.
    nexts: Vec<u32>,
}

impl Model for MadeIndex {
    ghost use Rattle.dag_soundness.specs.Internal.MadeLinks.{MadeLinks};

    ghost Value = { MadeLinks };

    ghost view = { λ index. record { firsts = index.firsts.items; nexts = index.nexts.items } };
}

impl MadeIndex {
    /// Returns the index of the clusters that the groups of these heads made.
    pub(crate) fn of(alloc: Global, heads: &Heads) -> Result<MadeIndex, Memory>
        requires range { IsInRange heads.now }
        ensures index { IfOk result (IsMadeIndexOf heads.now) }
    {
        let clusters = heads.clusters.as_slice();
        let none = clusters.len() as u32;
        let mut firsts = vec![in alloc; none; heads.groups.as_slice().len()]?;
        let mut nexts = vec![in alloc; none; clusters.len()]?;
        link(clusters, &mut firsts, &mut nexts);
        Ok(MadeIndex { firsts, nexts })
    }

    /// Returns the numbers of the clusters that the group made, ascending.
    pub(crate) fn made_by(
        &self,
        alloc: Global,
        heads: &Heads,
        group: u32,
    ) -> Result<Vec<u32>, Memory>
        requires range { IsInRange heads.now }
        requires index { IsMadeIndexOf heads.now self.now }
        requires group_range { group < length heads.now.groups }
        ensures made { IfOk result (λ made. made.items ≡ made_by heads.now group) }
    {
        let mut made = Vec::new(alloc);
        let mut next = self.firsts[group as usize];
        'made: while (next as usize) < heads.clusters.as_slice().len() {
            made.push(next)?;
            next = self.nexts[next as usize];
        }
        Ok(made)
    }
}

/// Links each cluster to the next one of its maker, the last cluster first. The tables begin with the number of
/// clusters everywhere.
fn link(clusters: &[ClusterHead], firsts: &mut [u32], nexts: &mut [u32])
    requires cluster_limit { length clusters.now < 2 ^ 32 }
    requires makers { (c g : ℕ) (none : ClusterHead) → c < length clusters.now →
        (slice_index_or clusters.now c none).made ≡ Some g → g < length firsts.old }
    requires nexts { length nexts.old ≡ length clusters.now }
    requires none { All (λ first. first ≡ length clusters.now) firsts.old }
    ensures first { (g : ℕ) → g < length firsts.new →
        slice_index firsts.new g ≡ next_made clusters.now g 0 }
    ensures next { (g c : ℕ) (none : ClusterHead) → c < length clusters.now →
        (slice_index_or clusters.now c none).made ≡ Some g →
        slice_index nexts.new c ≡ next_made clusters.now g (c + 1) }
{
    let mut c = clusters.len();
    'clusters: while c > 0 {
        c -= 1;
        if let Some(maker) = clusters[c].made {
            nexts[c] = firsts[maker as usize];
            firsts[maker as usize] = c as u32;
        }
    }
}
