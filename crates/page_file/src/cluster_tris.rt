ghost use Rattle.std.specs.Prelude.{◌≡◌, ◌<◌, All, IfOk, OnOk, [], length, map, replicate};
ghost use Rattle.dag_core.specs.Members.{all_clusters};
ghost use Rattle.dag_core.specs.Ranges.{IsInRange};
ghost use Rattle.dag_core.specs.Rules.{Checked};
ghost use Rattle.page_codec.specs.declared.directories.Directory.{Directory};
ghost use Rattle.page_file.specs.IsOpened.{ArePagesOf};
ghost use Rattle.page_file.specs.Internal.PutTris.{put_clusters, put_pages};
ghost use Rattle.page_file.specs.Verifying.{stored_tris};

use dag_core::{ClusterTris, Heads};
use geom_core::{Memory, Tagged, TaggedTris};
use page_codec::{Directory, Page, PageCluster};
use std::alloc::Global;

/// Returns a copy of the triangles.
fn copied_tris(alloc: Global, tris: &[Tagged]) -> Result<TaggedTris, Memory>
    ensures triangles { IfOk result (λ copy. copy ≡ tris.now) }
{
    let mut items = Vec::with_capacity(alloc, tris.len())?;
    items.extend_from_slice(tris)?;
    Ok(TaggedTris::of(items))
}

/// Returns `count` empty lists.
fn empty_lists(alloc: Global, count: usize) -> Result<Vec<TaggedTris>, Memory>
    ensures lists { IfOk result (λ lists. lists.items ≡ replicate count []) }
{
    let mut lists = Vec::with_capacity(alloc, count)?;
    'lists: for _ in 0..count {
        lists.push(TaggedTris::of(Vec::new(alloc)))?;
    }
    Ok(lists)
}

/// Puts the triangles of each of these clusters at the cluster's number.
fn put_clusters(
    alloc: Global,
    lists: &mut [TaggedTris],
    clusters: &[PageCluster],
) -> Result<(), Memory>
    requires cluster_range { All (λ cluster. cluster.number < length lists.old) clusters.now }
    ensures put { OnOk result (lists.new ≡ put_clusters lists.old clusters.now) }
{
    'clusters: for cluster in clusters {
        lists[cluster.number as usize] = copied_tris(alloc, cluster.tris.as_slice())?;
    }
    Ok(())
}

/// Puts the triangles of each page's clusters at the clusters' numbers. Each page is dropped once that is done.
fn put_pages(alloc: Global, lists: &mut [TaggedTris], pages: Vec<Page>) -> Result<(), Memory>
    requires cluster_range { All (λ page.
        All (λ cluster. cluster.number < length lists.old) page.clusters) pages.items }
    ensures put { OnOk result (lists.new ≡ put_pages lists.old pages.items) }
{
    'pages: for page in pages {
        put_clusters(alloc, lists, page.clusters.as_slice())?;
    }
    Ok(())
}

/// Returns the triangles of each cluster, by its number. These are all pages of the file.
pub(crate) fn cluster_tris(
    alloc: Global,
    directory: &Directory,
    pages: Vec<Page>,
) -> Result<ClusterTris, Memory>
    requires range { IsInRange directory.now.heads }
    requires rules { Checked directory.now.heads }
    requires pages { ArePagesOf directory.now directory.now.heads.pages pages.items }
    ensures triangles { IfOk result (λ tris. tris
        ≡ map (stored_tris directory.now.heads pages.items) (all_clusters directory.now.heads)) }
{
    let mut lists = empty_lists(alloc, directory.heads.clusters.as_slice().len())?;
    put_pages(alloc, &mut lists, pages)?;
    Ok(ClusterTris::of(lists))
}
