ghost use Rattle.std.specs.Prelude.{◌≡◌, ◌<◌, length};
ghost use Rattle.geom_core.specs.declared.limits.TheConstants.{PAGE_BYTES};
ghost use Rattle.dag_core.specs.Ranges.{IsInRange};
ghost use Rattle.dag_core.specs.Rules.{Checked};
ghost use Rattle.dag_core.specs.TriangleRules.{IsLaidOut};
ghost use Rattle.page_codec.specs.PageLinks.{IsIndexOf};

use crate::flat_dag::{Layout, flat_dag};
use dag_core::{Dag, Heads};
use geom_core::limits::PAGE_BYTES;
use page_codec::{PageIndex, decode_page_by, digest_of, encode_page_by};
use std::env;
use std::process::ExitCode;
use std::time::{CpuClock, Duration};

/// Triangles of a cluster, unless a number is given: thirteen such clusters fill a page.
const FULL_SIZE: u32 = 126;

/// The length of a page, in bytes.
const PAGE: usize = PAGE_BYTES as usize;

/// Processor times, and what was seen on the pages.
#[derive(Clone, Copy, Debug)]
struct Times {
    /// Making the index of the pages.
    index: Duration,
    /// Encoding all pages.
    encode: Duration,
    /// Decoding all pages, without giving their memory back.
    decode: Duration,
    /// Digesting all pages.
    digest: Duration,
    /// The clusters that were decoded.
    clusters: usize,
    /// The sum of the digests' first bytes.
    sum: u64,
}

/// The layout, if the command line is `pages`, a number and perhaps the triangles of a cluster.
pub fn layout_of(rt: &HostRuntime) -> Option<Layout> {
    let mut words = env::args(rt).ok()?.skip(1);
    let is_pages = words.next()?.as_str() == "pages";
    let pages = words.next()?.parse::<u32>().ok()?;
    let size = match words.next() {
        None => FULL_SIZE,
        Some(word) => word.parse::<u32>().ok()?,
    };
    if is_pages {
        Some(Layout { pages, size })
    } else {
        None
    }
}

/// Encodes, decodes and digests each page of a DAG that has this layout, and prints the times.
pub fn time_pages(rt: &HostRuntime, layout: Layout) -> ExitCode {
    let Ok(dag) = flat_dag(rt.alloc(), layout) else {
        return ExitCode::FAILURE;
    };
    if !dag.heads.is_in_range() || dag.heads.check(rt.alloc()).is_err() {
        let _ = eprintln!(rt; "geode_bench: no DAG has this layout");
        return ExitCode::from(2);
    }
    let Some(times) = time_all(rt, &dag) else {
        return ExitCode::FAILURE;
    };
    print_times(rt, layout, times);
    ExitCode::SUCCESS
}

/// Prints the times, and what was seen on the pages.
fn print_times(rt: &HostRuntime, layout: Layout, times: Times) {
    let (pages, clusters, sum) = (layout.pages, times.clusters, times.sum);
    let index = times.index.as_micros();
    let encode = times.encode.as_micros();
    let decode = times.decode.as_micros();
    let digest = times.digest.as_micros();
    let _ = println!(rt; "pages {pages} clusters {clusters} sum {sum}");
    let _ = println!(rt;
        "index {index} us encode {encode} us decode {decode} us digest {digest} us"
    );
}

/// Makes the index of the pages, and encodes, decodes and digests each page.
fn time_all(rt: &HostRuntime, dag: &Dag) -> Option<Times>
    requires laid_out { IsLaidOut dag.now }
{
    let start = rt.process_cpu_time().ok()?;
    let index = PageIndex::of(rt.alloc(), &dag.heads).ok()?;
    let end = rt.process_cpu_time().ok()?;
    let mut bytes = blank();
    let mut times = Times {
        index: end.saturating_sub(start),
        encode: Duration::ZERO,
        decode: Duration::ZERO,
        digest: Duration::ZERO,
        clusters: 0,
        sum: 0,
    };
    for page in 0..dag.heads.pages {
        time_encode(rt, dag, &index, page, &mut bytes, &mut times)?;
        time_decode(rt, &dag.heads, &index, page, &bytes, &mut times)?;
        time_digest(rt, &bytes, &mut times)?;
    }
    Some(times)
}

/// Returns a page of zeros.
fn blank() -> [u8; PAGE] {
    [0; PAGE]
}

/// Encodes the page.
fn time_encode(
    rt: &HostRuntime,
    dag: &Dag,
    index: &PageIndex,
    page: u32,
    bytes: &mut [u8; PAGE],
    times: &mut Times,
) -> Option<()>
    requires laid_out { IsLaidOut dag.now }
    requires index { IsIndexOf dag.now.heads index.now }
    requires page_range { page < dag.now.heads.pages }
{
    let start = rt.process_cpu_time().ok()?;
    encode_page_by(dag, index, page, bytes);
    let end = rt.process_cpu_time().ok()?;
    times.encode = times.encode.saturating_add(end.saturating_sub(start));
    Some(())
}

/// Decodes the page.
fn time_decode(
    rt: &HostRuntime,
    heads: &Heads,
    index: &PageIndex,
    page: u32,
    bytes: &[u8],
    times: &mut Times,
) -> Option<()>
    requires length { length bytes.now ≡ PAGE_BYTES }
    requires range { IsInRange heads.now }
    requires rules { Checked heads.now }
    requires index { IsIndexOf heads.now index.now }
    requires page_range { page < heads.now.pages }
{
    let start = rt.process_cpu_time().ok()?;
    let decoded = decode_page_by(rt.alloc(), bytes, heads, index, page).ok()?;
    let end = rt.process_cpu_time().ok()?;
    let clusters = decoded.clusters.as_slice().len();
    times.clusters = times.clusters.saturating_add(clusters);
    times.decode = times.decode.saturating_add(end.saturating_sub(start));
    Some(())
}

/// Digests the page.
fn time_digest(rt: &HostRuntime, bytes: &[u8], times: &mut Times) -> Option<()> {
    let start = rt.process_cpu_time().ok()?;
    let digest = digest_of(bytes);
    let end = rt.process_cpu_time().ok()?;
    times.sum = times.sum.saturating_add(u64::from(digest.bytes[0]));
    times.digest = times.digest.saturating_add(end.saturating_sub(start));
    Some(())
}
