ghost use Rattle.std.specs.Prelude.{◌≡◌, ◌≤◌, ◌<◌, ◌*◌, ℕ, All, IfErr, IfOk, IfSome, OnOk, length, map, sum_by, None};
ghost use Rattle.dag_core.specs.Members.{cluster_at};
ghost use Rattle.dag_core.specs.Pages.{clusters_on};
ghost use Rattle.dag_core.specs.Ranges.{IsInRange};
ghost use Rattle.dag_core.specs.Rules.{Checked};
ghost use Rattle.page_codec.specs.Breaks.{first_page_break, Refuses};
ghost use Rattle.page_codec.specs.Fits.{FitsPage};
ghost use Rattle.page_codec.specs.PageLinks.{IsIndexOf};
ghost use Rattle.page_codec.specs.Reading.{clusters_of, page_of};
ghost use Rattle.page_codec.specs.Spelling.{page_bytes};

use crate::breaks::Refused;
use crate::first_breaks::first_page_break;
use crate::page_clusters::{clusters_on, count_tris};
use crate::page_indexes::PageIndex;
use crate::pages::{Page, PageCluster, PageClusters};
use crate::tables::read_records;
use dag_core::Heads;
use geom_core::limits::{PAGE_BYTES, TRIANGLE_BYTES};
use geom_core::{Memory, TaggedTris};
use std::alloc::Global;

/// Reads the clusters, one after the other, each with as many triangles as its head states.
fn read_clusters(
    alloc: Global,
    heads: &Heads,
    clusters: &[u32],
    bytes: &[u8],
) -> Result<Vec<PageCluster>, Memory>
    requires cluster_range { All (λ c. c < length heads.now.clusters) clusters.now }
    requires room { TRIANGLE_BYTES * sum_by (λ c. (cluster_at heads.now c).tris) clusters.now
        ≤ length bytes.now }
    ensures clusters { IfOk result (λ items. items.items ≡ clusters_of heads.now clusters.now bytes.now) }
{
    let all = heads.clusters.as_slice();
    let mut items = Vec::with_capacity(alloc, clusters.len())?;
    let mut rest = bytes;
    'clusters: for cluster in clusters {
        let count = all[*cluster as usize].tris as usize;
        let tris = TaggedTris::of(read_records(alloc, rest, count)?);
        items.push(PageCluster {
            number: *cluster,
            tris,
        })?;
        rest = &rest[TRIANGLE_BYTES as usize * count..];
    }
    Ok(items)
}

/// Decodes page `page`, with or without an index of the heads' pages.
fn decode(
    alloc: Global,
    bytes: &[u8],
    heads: &Heads,
    index: Option<&PageIndex>,
    page: u32,
) -> Result<Page, Refused>
    requires length { length bytes.now ≡ PAGE_BYTES }
    requires range { IsInRange heads.now }
    requires rules { Checked heads.now }
    requires page_range { page < heads.now.pages }
    requires index { IfSome index (λ links. IsIndexOf heads.now links.now) }
    ensures page { IfOk result (λ found. found ≡ page_of heads.now page bytes.now) }
    ensures spelling { IfOk result (λ found. page_bytes found ≡ bytes.now) }
    ensures fits { IfOk result (FitsPage heads.now) }
    ensures no_break { OnOk result (first_page_break heads.now page bytes.now ≡ None) }
    ensures bad { IfErr result (Refuses (first_page_break heads.now page bytes.now)) }
{
    let numbers = clusters_on(alloc, heads, index, page)?;
    let count = count_tris(heads, &numbers);
    match first_page_break(bytes, heads.sources, count) {
        Some(found) => Err(Refused::Bad(found)),
        None => {
            let items = read_clusters(alloc, heads, &numbers, bytes)?;
            let clusters = PageClusters::of(items);
            Ok(Page {
                number: page,
                clusters,
            })
        }
    }
}

/// Decodes page `page` of a file with these heads. All groups are looked at; for many pages see `decode_page_by`.
///
/// `Bad` comes exactly where the bytes break a rule, unless memory runs out; its offset counts from the page's start.
pub fn decode_page(alloc: Global, bytes: &[u8], heads: &Heads, page: u32) -> Result<Page, Refused>
    requires length { length bytes.now ≡ PAGE_BYTES }
    requires range { IsInRange heads.now }
    requires rules { Checked heads.now }
    requires page_range { page < heads.now.pages }
    ensures page { IfOk result (λ found. found ≡ page_of heads.now page bytes.now) }
    ensures spelling { IfOk result (λ found. page_bytes found ≡ bytes.now) }
    ensures fits { IfOk result (FitsPage heads.now) }
    ensures no_break { OnOk result (first_page_break heads.now page bytes.now ≡ None) }
    ensures bad { IfErr result (Refuses (first_page_break heads.now page bytes.now)) }
{
    decode(alloc, bytes, heads, None, page)
}

/// Decodes a page as `decode_page` does. The groups on the page come from the index, in time in proportion to them.
pub fn decode_page_by(
    alloc: Global,
    bytes: &[u8],
    heads: &Heads,
    index: &PageIndex,
    page: u32,
) -> Result<Page, Refused>
    requires length { length bytes.now ≡ PAGE_BYTES }
    requires range { IsInRange heads.now }
    requires rules { Checked heads.now }
    requires page_range { page < heads.now.pages }
    requires index { IsIndexOf heads.now index.now }
    ensures page { IfOk result (λ found. found ≡ page_of heads.now page bytes.now) }
    ensures spelling { IfOk result (λ found. page_bytes found ≡ bytes.now) }
    ensures fits { IfOk result (FitsPage heads.now) }
    ensures no_break { OnOk result (first_page_break heads.now page bytes.now ≡ None) }
    ensures bad { IfErr result (Refuses (first_page_break heads.now page bytes.now)) }
{
    decode(alloc, bytes, heads, Some(index), page)
}
