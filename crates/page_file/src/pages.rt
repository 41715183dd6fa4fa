ghost use Rattle.std.specs.Prelude.{◌≡◌, ◌≤◌, ◌<◌, [], ◌∷◌, ◌++◌, IfErr, IfOk, IfSome, Ok, OnOk, flat_map, length};
ghost use Rattle.geom_core.specs.declared.limits.TheConstants.{PAGE_BYTES};
ghost use Rattle.dag_core.specs.Ranges.{counts_of};
ghost use Rattle.dag_core.specs.Rules.{Checked};
ghost use Rattle.page_codec.specs.Fits.{FitsDirectory};
ghost use Rattle.page_codec.specs.PageLinks.{IsIndexOf};
ghost use Rattle.page_codec.specs.Spelling.{page_at, page_bytes};
ghost use Rattle.page_file.specs.Internal.Seen.{Answers, JudgedTo, PageRefused, StandsAt, StepRefused};
ghost use Rattle.page_file.specs.IsOpened.{ArePagesOf, IsPageOf};
ghost use Rattle.page_file.specs.Judging.{page_judged};
ghost use Rattle.page_file.specs.Opening.{pages_opened};
ghost use Rattle.page_file.specs.Refusals.{DigestsDiffer};

use crate::open_faults::OpenFault;
use crate::reads::{read_whole, zeros};
use geom_core::Memory;
use geom_core::limits::PAGE_BYTES;
use page_codec::{Directory, Page, PageIndex, Refused, decode_page_by, digest_of, page_at};
use page_sources::PageSource;
use std::alloc::Global;

/// Judges the bytes of page `page`: their digest, then their grammar.
#[tactic(auto, unfolding(crate::specs::Judging::page_fault, crate::specs::Judging::page_digest_found))]
fn judge_page(
    alloc: Global,
    directory: &Directory,
    index: &PageIndex,
    page: u32,
    text: &[u8],
) -> Result<Page, OpenFault>
    requires length { length text.now ≡ PAGE_BYTES }
    requires directory { FitsDirectory directory.now }
    requires rules { Checked directory.now.heads }
    requires page_range { page < directory.now.heads.pages }
    requires index { IsIndexOf directory.now.heads index.now }
    ensures page { IfOk result (λ found. page_judged directory.now page text.now ≡ Ok found) }
    ensures spelling { IfOk result (λ found. page_bytes found ≡ text.now) }
    ensures refused { IfErr result (JudgedTo (page_judged directory.now page text.now)) }
    ensures digests { IfErr result DigestsDiffer }
    ensures checked { IfOk result (IsPageOf directory.now page) }
{
    let found = digest_of(text);
    let stated = directory.digests.as_slice()[page as usize];
    if stated != found {
        return Err(OpenFault::PageDigest {
            page,
            stated,
            found,
        });
    }
    match decode_page_by(alloc, text, &directory.heads, index, page) {
        Ok(found) => Ok(found),
        Err(Refused::Bad(broken)) => Err(OpenFault::PageBad {
            page,
            rule: broken.rule,
            offset: broken.offset,
        }),
        Err(Refused::Memory) => Err(OpenFault::Memory),
    }
}

/// Reads and judges page `page`; the buffer is of a page's length, and is left with the page's bytes.
fn open_page<P: PageSource>(
    alloc: Global,
    src: &mut P,
    directory: &Directory,
    index: &PageIndex,
    page: u32,
    buffer: &mut [u8],
) -> Result<Page, OpenFault>
    requires length { length buffer.old ≡ PAGE_BYTES }
    requires directory { FitsDirectory directory.now }
    requires rules { Checked directory.now.heads }
    requires page_range { page < directory.now.heads.pages }
    requires index { IsIndexOf directory.now.heads index.now }
    ensures read { OnOk result (IfSome (P.holds src.old)
        (StandsAt (page_at (counts_of directory.now.heads) page) buffer.new)) }
    ensures page { IfOk result (λ found. page_judged directory.now page buffer.new ≡ Ok found) }
    ensures spelling { IfOk result (λ found. page_bytes found ≡ buffer.new) }
    ensures no_fault { OnOk result (P.faults src.new ≡ P.faults src.old) }
    ensures checked { IfOk result (IsPageOf directory.now page) }
    ensures refused { IfErr result (PageRefused (P.holds src.old)
        (page_at (counts_of directory.now.heads) page) (page_judged directory.now page)
        buffer.new (P.faults src.old) (P.faults src.new)) }
    ensures digests { IfErr result DigestsDiffer }
    ensures unchanged { P.holds src.new ≡ P.holds src.old }
    ensures fault_count { P.faults src.old ≤ P.faults src.new }
{
    let counts = directory.heads.counts();
    read_whole(src, page_at(&counts, page), buffer)?;
    judge_page(alloc, directory, index, page, buffer)
}

/// Appends a page.
fn push_page(pages: &mut Vec<Page>, page: Page) -> Result<(), Memory>
    ensures pushed { OnOk result (pages.new.items ≡ pages.old.items ++ page ∷ []) }
{
    pages.push(page)?;
    Ok(())
}

/// Reads and judges the first `count` pages, ascending; each is judged before the next is read.
pub(crate) fn open_first_pages<P: PageSource>(
    alloc: Global,
    src: &mut P,
    directory: &Directory,
    count: u32,
) -> Result<Vec<Page>, OpenFault>
    requires directory { FitsDirectory directory.now }
    requires rules { Checked directory.now.heads }
    requires page_range { count ≤ directory.now.heads.pages }
    ensures pages { IfOk result (λ pages. Answers (P.holds src.old)
        (page_at (counts_of directory.now.heads) 0) (pages_opened directory.now count)
        (Ok pages.items)) }
    ensures spelling { IfOk result (λ pages. IfSome (P.holds src.old)
        (StandsAt (page_at (counts_of directory.now.heads) 0) (flat_map page_bytes pages.items))) }
    ensures no_fault { OnOk result (P.faults src.new ≡ P.faults src.old) }
    ensures checked { IfOk result (λ pages. ArePagesOf directory.now count pages.items) }
    ensures refused { IfErr result (StepRefused (P.holds src.old)
        (page_at (counts_of directory.now.heads) 0) (pages_opened directory.now count)
        (P.faults src.old) (P.faults src.new)) }
    ensures digests { IfErr result DigestsDiffer }
    ensures unchanged { P.holds src.new ≡ P.holds src.old }
    ensures fault_count { P.faults src.old ≤ P.faults src.new }
{
    let index = PageIndex::of(alloc, &directory.heads)?;
    let mut buffer = zeros(alloc, PAGE_BYTES as usize)?;
    let mut pages = Vec::new(alloc);
    'pages: for page in 0..count {
        let opened = open_page(alloc, src, directory, &index, page, &mut buffer)?;
        push_page(&mut pages, opened)?;
    }
    Ok(pages)
}
