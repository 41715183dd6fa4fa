ghost use Rattle.std.specs.Prelude.{◌≡◌, ◌≤◌, ◌<◌, Err, IfOk, OnOk, true};
ghost use Rattle.std.specs.Bool.{OnFalse, OnTrue};
ghost use Rattle.sha2.specs.Sha256.{sha256};
ghost use Rattle.dag_core.specs.TriangleRules.{IsLaidOut};
ghost use Rattle.span_io.specs.Faults.{Rose};
ghost use Rattle.span_io.specs.Puts.{Appended};
ghost use Rattle.page_codec.specs.PageLinks.{IsIndexOf};
ghost use Rattle.page_codec.specs.Spelling.{directory_bytes, directory_in, file_bytes, header_bytes, header_in, page_bytes, page_in};
ghost use Rattle.page_file.specs.Internal.PageTexts.{pages_bytes};
ghost use Rattle.page_file.specs.Internal.Puts.{PutsText, StopsPutting};
ghost use Rattle.page_file.specs.WrittenFiles.{AppendsPrefix};
ghost use Rattle.page_file.specs.declared.page_writes.PageWrite.TheVariants as faults;

use crate::page_writes::PageWrite;
use dag_core::{ClusterHeads, Dag, Groups, Heads};
use geom_core::limits::PAGE_BYTES;
use geom_core::{Digest32, Memory};
use page_codec::sizes::{HEADER_BYTES, VERSION};
use page_codec::{
    Digests, Directory, Header, PageIndex, digest_of, directory_digest, encode_directory,
    encode_header, encode_page_by,
};
use span_io::{Sink, put_all};
use std::alloc::Global;

/// The bytes of a page.
type PageBuffer = [u8; PAGE_BYTES as usize];

/// What of a file comes before its pages.
#[derive(Drop)]
struct Front {
    header: [u8; HEADER_BYTES as usize],
    directory: Vec<u8>,
}

/// Returns a page of zeros.
fn page_buffer() -> PageBuffer {
    [0; PAGE_BYTES as usize]
}

/// Returns the digest of a page; the buffer is left with the page's bytes.
fn page_digest(dag: &Dag, index: &PageIndex, page: u32, buffer: &mut PageBuffer) -> Digest32
    requires laid_out { IsLaidOut dag.now }
    requires page_range { page < dag.now.heads.pages }
    requires index { IsIndexOf dag.now.heads index.now }
    ensures digest { result.bytes ≡ sha256 (page_bytes (page_in dag.now page)) }
{
    encode_page_by(dag, index, page, buffer);
    digest_of(buffer)
}

/// Returns the digest of each page; the buffer is left with the last page's bytes.
fn page_digests(
    alloc: Global,
    dag: &Dag,
    index: &PageIndex,
    buffer: &mut PageBuffer,
) -> Result<Digests, Memory>
    requires laid_out { IsLaidOut dag.now }
    requires index { IsIndexOf dag.now.heads index.now }
    ensures digests { IfOk result (λ digests. digests ≡ (directory_in dag.now).digests) }
{
    let mut digests = Vec::with_capacity(alloc, dag.heads.pages as usize)?;
    'pages: for page in 0..dag.heads.pages {
        digests.push(page_digest(dag, index, page, buffer))?;
    }
    Ok(Digests::of(digests))
}

/// Returns a copy of the heads.
fn copied(alloc: Global, heads: &Heads) -> Result<Heads, Memory>
    ensures heads { IfOk result (λ copy. copy ≡ heads.now) }
{
    let mut groups = Vec::new(alloc);
    groups.extend_from_slice(heads.groups.as_slice())?;
    let mut clusters = Vec::new(alloc);
    clusters.extend_from_slice(heads.clusters.as_slice())?;
    Ok(Heads {
        groups: Groups::of(groups),
        clusters: ClusterHeads::of(clusters),
        pages: heads.pages,
        roots: heads.roots,
        sources: heads.sources,
    })
}

/// Returns the header and the directory of the DAG's file; each page is encoded once, for its digest.
fn front_of(
    alloc: Global,
    dag: &Dag,
    index: &PageIndex,
    buffer: &mut PageBuffer,
) -> Result<Front, Memory>
    requires laid_out { IsLaidOut dag.now }
    requires index { IsIndexOf dag.now.heads index.now }
    ensures header { IfOk result (λ front. front.header ≡ header_bytes (header_in dag.now)) }
    ensures directory { IfOk result (λ front. front.directory.items
        ≡ directory_bytes (directory_in dag.now)) }
{
    let directory = Directory {
        digests: page_digests(alloc, dag, index, buffer)?,
        heads: copied(alloc, &dag.heads)?,
    };
    let bytes = encode_directory(alloc, &directory)?;
    let counts = dag.heads.counts();
    let header = Header {
        version: VERSION,
        counts,
        digest: directory_digest(VERSION, &counts, &bytes),
    };
    Ok(Front {
        header: encode_header(&header),
        directory: bytes,
    })
}

/// Writes the pages in order, each encoded into the buffer. Returns whether all were written.
fn put_pages<K: Sink>(dag: &Dag, index: &PageIndex, buffer: &mut PageBuffer, out: &mut K) -> bool
    requires laid_out { IsLaidOut dag.now }
    requires index { IsIndexOf dag.now.heads index.now }
    ensures pages { OnTrue result (PutsText (K.written out.old) (K.written out.new)
        (K.faults out.old) (K.faults out.new) (pages_bytes dag.now dag.now.heads.pages)) }
    ensures stopped { OnFalse result (StopsPutting (K.written out.old) (K.written out.new)
        (K.faults out.old) (K.faults out.new) (pages_bytes dag.now dag.now.heads.pages)) }
{
    'pages: for p in 0..dag.heads.pages {
        encode_page_by(dag, index, p, buffer);
        if !put_all(out, buffer) {
            return false;
        }
    }
    true
}

/// Writes the header, the directory, then the pages. Returns whether all were written.
fn put_file<K: Sink>(
    front: &Front,
    dag: &Dag,
    index: &PageIndex,
    buffer: &mut PageBuffer,
    out: &mut K,
) -> bool
    requires laid_out { IsLaidOut dag.now }
    requires index { IsIndexOf dag.now.heads index.now }
    requires header { front.now.header ≡ header_bytes (header_in dag.now) }
    requires directory { front.now.directory.items ≡ directory_bytes (directory_in dag.now) }
    ensures file { OnTrue result (PutsText (K.written out.old) (K.written out.new)
        (K.faults out.old) (K.faults out.new) (file_bytes dag.now)) }
    ensures stopped { OnFalse result (StopsPutting (K.written out.old) (K.written out.new)
        (K.faults out.old) (K.faults out.new) (file_bytes dag.now)) }
{
    if !put_all(out, &front.header) {
        return false;
    }
    if !put_all(out, &front.directory) {
        return false;
    }
    put_pages(dag, index, buffer, out)
}

/// Writes the page file of a laid-out DAG, and flushes the sink. The bytes are those of `page_codec`'s `file_bytes`.
///
/// The memory, about that of the directory, is taken before the first write; after that only `Write` can come. Each
/// page is encoded twice, for its digest and to be written, into one buffer of a page, so the file never is in
/// memory.
#[tactic(auto, using(crate::proofs::FileWrites::prefix_whole))]
pub fn write_pages<K: Sink>(alloc: Global, dag: &Dag, out: &mut K) -> Result<(), PageWrite>
    requires laid_out { IsLaidOut dag.now }
    ensures file { OnOk result (Appended (K.written out.old) (K.written out.new)
        (file_bytes dag.now)) }
    ensures flushed { OnOk result (K.flushed out.new ≡ true) }
    ensures no_fault { OnOk result (K.faults out.new ≡ K.faults out.old) }

    ensures cause { result ≡ Err faults.Write → Rose (K.faults out.old) (K.faults out.new) }
    ensures prefix { result ≡ Err faults.Write →
        AppendsPrefix (K.written out.old) (K.written out.new) (file_bytes dag.now) }

    ensures memory { result ≡ Err faults.Memory → out.new ≡ out.old }

    ensures fault_count { K.faults out.old ≤ K.faults out.new }
{
    let index = PageIndex::of(alloc, &dag.heads)?;
    let mut buffer = page_buffer();
    let front = front_of(alloc, dag, &index, &mut buffer)?;
    if !put_file(&front, dag, &index, &mut buffer, out) {
        return Err(PageWrite::Write);
    }
    if out.finish() {
        Ok(())
    } else {
        Err(PageWrite::Write)
    }
}
