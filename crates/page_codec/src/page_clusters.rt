ghost use Rattle.std.specs.Prelude.{◌≡◌, ◌≤◌, ◌<◌, ◌+◌, ◌^◌, ◌++◌, ℕ, All, IfOk, IfSome, OnOk, length, sum_by};
ghost use Rattle.std.specs.List.{range_with_len};
ghost use Rattle.dag_core.specs.Members.{cluster_at};
ghost use Rattle.dag_core.specs.Pages.{clusters_on};
ghost use Rattle.dag_core.specs.Ranges.{IsInRange};
ghost use Rattle.dag_core.specs.Rules.{Checked};
ghost use Rattle.page_codec.specs.PageLinks.{IsIndexOf};

use crate::page_indexes::PageIndex;
use crate::walk::{first_group, next_group};
use dag_core::Heads;
use geom_core::Memory;
use std::alloc::Global;

/// Appends `count` numbers from `first` on.
fn push_range(first: u32, count: u32, out: &mut Vec<u32>) -> Result<(), Memory>
    requires fits { first + count < 2 ^ 32 }
    ensures appended { OnOk result (out.new.items ≡ out.old.items ++ range_with_len first count) }
{
    'members: for k in 0..count {
        out.push(first + k)?;
    }
    Ok(())
}

/// Returns the clusters on the page, ascending.
pub(crate) fn clusters_on(
    alloc: Global,
    heads: &Heads,
    index: Option<&PageIndex>,
    page: u32,
) -> Result<Vec<u32>, Memory>
    requires range { IsInRange heads.now }
    requires rules { Checked heads.now }
    requires page_range { page < heads.now.pages }
    requires index { IfSome index (λ links. IsIndexOf heads.now links.now) }
    ensures clusters { IfOk result (λ clusters. clusters.items ≡ clusters_on heads.now page) }
{
    let groups = heads.groups.as_slice();
    let mut clusters = Vec::new(alloc);
    let mut g = first_group(heads, index, page);
    'groups: while (g as usize) < groups.len() {
        let group = groups[g as usize];
        push_range(group.first, group.count, &mut clusters)?;
        g = next_group(heads, index, g);
    }
    Ok(clusters)
}

/// Returns the number of triangles of the clusters.
pub(crate) fn count_tris(heads: &Heads, clusters: &[u32]) -> u32
    requires cluster_range { All (λ c. c < length heads.now.clusters) clusters.now }
    requires fits { sum_by (λ c. (cluster_at heads.now c).tris) clusters.now < 2 ^ 32 }
    ensures count { result ≡ sum_by (λ c. (cluster_at heads.now c).tris) clusters.now }
{
    let all = heads.clusters.as_slice();
    let mut count = 0;
    'clusters: for cluster in clusters {
        count += all[*cluster as usize].tris;
    }
    count
}
