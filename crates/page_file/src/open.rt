ghost use Rattle.std.specs.Prelude.{◌≡◌, ◌≤◌, ◌<◌, ◌^◌, ℕ, List, IfErr, IfOk, IfSome, Ok, OnOk, Some};
ghost use Rattle.dag_core.specs.Rules.{Checked};
ghost use Rattle.dag_core.specs.Ranges.{AreCountsInRange, counts_of};
ghost use Rattle.page_codec.specs.Fits.{FitsDirectory};
ghost use Rattle.page_codec.specs.Spelling.{directory_length, page_at};
ghost use Rattle.span_io.specs.Faults.{Rose};
ghost use Rattle.page_file.specs.declared.open_faults.OpenFault.TheVariants.{Memory};
ghost use Rattle.page_file.specs.declared.opened.Opened.{Opened};
ghost use Rattle.page_file.specs.Internal.Fronts.{front_bytes};
ghost use Rattle.page_file.specs.Internal.Seen.{Decides, StandsAt, StepRefused};
ghost use Rattle.page_file.specs.IsOpened.{IsOpened};
ghost use Rattle.page_file.specs.Opening.{directory_opened, opening, root_pages};
ghost use Rattle.page_file.specs.Refusals.{DigestsDiffer, Opens, Refuses};

use crate::directories::judge_directory;
use crate::headers::judge_header;
use crate::open_faults::OpenFault;
use crate::opened::{Opened, Pages};
use crate::pages::open_first_pages;
use crate::reads::{read_text, read_whole};
use dag_core::Counts;
use page_codec::sizes::HEADER_BYTES;
use page_codec::{Directory, page_at};
use page_sources::PageSource;
use std::alloc::Global;

/// Returns the number of bytes of a directory with these counts.
fn directory_length(counts: &Counts) -> usize
    requires counts { AreCountsInRange counts.now }
    ensures bytes { result ≡ directory_length counts.now }
    ensures limit { result < 2 ^ 32 }
{
    page_at(counts, 0) as usize - HEADER_BYTES as usize
}

/// Reads and judges the header, then the directory.
pub(crate) fn open_directory<P: PageSource>(
    alloc: Global,
    src: &mut P,
) -> Result<Directory, OpenFault>
    ensures directory { IfOk result (λ found. Decides (P.holds src.old) directory_opened found
        (page_at (counts_of found.heads) 0)) }
    ensures spelling { IfOk result (λ found. IfSome (P.holds src.old)
        (StandsAt 0 (front_bytes found))) }
    ensures no_fault { OnOk result (P.faults src.new ≡ P.faults src.old) }
    ensures fits { IfOk result FitsDirectory }
    ensures rules { IfOk result (λ found. Checked found.heads) }
    ensures refused { IfErr result (StepRefused (P.holds src.old) 0 directory_opened
        (P.faults src.old) (P.faults src.new)) }
    ensures digests { IfErr result DigestsDiffer }
    ensures unchanged { P.holds src.new ≡ P.holds src.old }
    ensures fault_count { P.faults src.old ≤ P.faults src.new }
{
    let mut head = [0; HEADER_BYTES as usize];
    read_whole(src, 0, &mut head)?;
    let header = judge_header(&head)?;
    let len = directory_length(&header.counts);
    let text = read_text(alloc, src, u64::from(HEADER_BYTES), len)?;
    judge_directory(alloc, &header, &text)
}

/// Opens a page file: reads its header, its directory and its root pages, and judges each before the next read.
///
/// The answer is what the file's bytes spell, or the first fault. The header is one read of 64 bytes, a root page one
/// of `PAGE_BYTES`; the directory is read in pieces of `READ_BYTES`, and room for a piece is taken only once the piece
/// before it was read, so a header alone can't ask for much memory. Bytes after the root pages are not read.
///
/// If the source doesn't tell its bytes, the answer is that of some bytes.
pub fn open_pages<P: PageSource>(alloc: Global, src: &mut P) -> Result<Opened, OpenFault>
    ensures opened { IfOk result (λ opened. Opens root_pages (P.holds src.old) (Ok opened)) }
    ensures refused { IfErr result (Refuses root_pages (P.holds src.old)
        (P.faults src.old) (P.faults src.new)) }
    ensures checked { IfOk result IsOpened }
    ensures complete { (bytes : List ℕ) (opened : Opened) → P.holds src.old ≡ Some bytes →
        opening root_pages bytes ≡ Ok opened → (Rose (P.faults src.old) (P.faults src.new) → ⊥) →
        IfErr result (λ fault. fault ≡ Memory) }
    ensures digests { IfErr result DigestsDiffer }

    ensures unchanged { P.holds src.new ≡ P.holds src.old }
    ensures fault_count { P.faults src.old ≤ P.faults src.new }
{
    let directory = open_directory(alloc, src)?;
    let roots = open_first_pages(alloc, src, &directory, directory.heads.roots)?;
    Ok(Opened {
        directory,
        roots: Pages::of(roots),
    })
}
