ghost use Rattle.std.specs.Prelude.{◌≡◌, ◌&&◌, nat_le, not};
ghost use Rattle.std.specs.List.{list_all};
ghost use Rattle.std.specs.Option.{option_map};
ghost use Rattle.pool_rules.specs.Next.{is_want_for};
ghost use Rattle.pool_tables.specs.declared.frame_item.FrameId.{FrameId};
ghost use Rattle.pool_tables.specs.FrameItems.{asked_in, ended_in, item_of};
ghost use Rattle.pool_tables.specs.PageRecords.{is_record_held, record_at};
ghost use Rattle.pool_tables.specs.WantQueue.{can_take_in, counts_in, is_before, is_loading_in, is_takeable_in, is_waiting, stands, want_of};

use crate::frame_item::FrameId;
use crate::frames::FrameTable;
use crate::page_record::PageRecord;
use crate::page_table::PageTable;
use crate::queued_want::QueuedWant;
use journal::Layout;
use pool_rules::Want;

/// Whether there was an end, and it was before this count.
fn is_before(ended: Option<u64>, count: u64) -> bool
    ensures { result ≡ is_before ended count }
{
    match ended {
        Some(ended) => ended < count,
        None => false,
    }
}

/// Whether the want's frame made no Settle or Ask after it, and did not end before the last one of any frame.
fn is_still_wanted(want: QueuedWant, frames: &FrameTable) -> bool
    ensures { result ≡ (nat_le (asked_in (item_of frames.now want.frame.0)) want.made_at
        && not (is_before (ended_in (item_of frames.now want.frame.0)) frames.now.last_asked)) }
{
    match frames.get(want.frame) {
        Some(item) => {
            item.asked_at <= want.made_at && !is_before(item.ended_at, frames.last_asked())
        }
        None => true,
    }
}

/// Whether the want is not over.
pub fn stands(want: QueuedWant, frames: &FrameTable, pages: &PageTable) -> bool
    ensures { result ≡ stands (counts_in pages.now.records frames.now) want }
{
    pages.get(want.page).load_ended_at <= want.made_at && is_still_wanted(want, frames)
}

/// Whether the page is resident or being loaded.
fn is_held(page_record: PageRecord) -> bool
    ensures { result ≡ is_record_held page_record }
{
    page_record.resident || page_record.loader.is_some()
}

/// Whether the uppers are resident.
fn are_resident(pages: &PageTable, uppers: &[u32]) -> bool
    ensures { result ≡ list_all (λ upper. (record_at pages.now.records upper).resident) uppers.now }
{
    uppers.iter().all(|upper| pages.get(*upper).resident)
}

/// Whether the page is neither resident nor being loaded, and its uppers are resident.
fn can_take(layout: &Layout, pages: &PageTable, page: u32) -> bool
    ensures { result ≡ can_take_in layout.now pages.now.records page }
{
    !is_held(pages.get(page)) && are_resident(pages, layout.uppers_of(page))
}

/// Whether it is a want for the frame, or for any if none is given.
fn is_for(frame: Option<FrameId>, want: Want) -> bool
    ensures { result ≡ is_want_for (option_map (λ (f : FrameId). f.0) frame) want }
{
    match frame {
        Some(frame) => want.frame == frame.0,
        None => true,
    }
}

/// Whether the want is not over, is for the frame, or for any if none is given, and its page can be taken.
pub fn is_takeable(
    queued: QueuedWant,
    frames: &FrameTable,
    pages: &PageTable,
    layout: &Layout,
    frame: Option<FrameId>,
) -> bool
    ensures { result ≡ (is_takeable_in layout.now pages.now.records
        (option_map (λ (f : FrameId). f.0) frame) (want_of queued)
        && stands (counts_in pages.now.records frames.now) queued) }
{
    let want = queued.want();
    is_for(frame, want) && can_take(layout, pages, want.page) && stands(queued, frames, pages)
}

/// Whether the want is the frame's, is not over, and its page is being loaded.
pub fn is_loading(
    queued: QueuedWant,
    frames: &FrameTable,
    pages: &PageTable,
    frame: FrameId,
) -> bool
    ensures { result ≡ (is_loading_in pages.now.records frame.0 (want_of queued)
        && stands (counts_in pages.now.records frames.now) queued) }
{
    let want = queued.want();
    want.frame == frame.0 && pages.get(want.page).loader.is_some() && stands(queued, frames, pages)
}

/// Whether the want is not over, a Settle made it, and it is of the page.
pub fn is_waiting(want: QueuedWant, frames: &FrameTable, pages: &PageTable, page: u32) -> bool
    ensures { result ≡ is_waiting (counts_in pages.now.records frames.now) page want }
{
    // Most wants are of other pages: the look-ups of the frame come last.
    want.page == page && want.settled && stands(want, frames, pages)
}
