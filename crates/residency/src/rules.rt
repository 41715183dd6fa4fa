//! Which entry is allowed next.

ghost use Rattle.std.specs.Prelude.{◌≡◌, ◌&&◌, List, Some, not};
ghost use Rattle.std.specs.List.{list_all, list_any};
ghost use Rattle.journal.specs.declared.entries.Entry.{Entry};
ghost use Rattle.journal.specs.declared.entries.What.TheVariants.{Ask, Full, Narrow, Pin, Settle, Take};
ghost use Rattle.journal.specs.declared.layouts.Layout.{Layout};
ghost use Rattle.journal.specs.Layout.{InBounds, ascends};
ghost use Rattle.pool_rules.specs.Next.{is_full, is_take, next_after};
ghost use Rattle.pool_rules.specs.Numbers.{holds};
ghost use Rattle.pool_rules.specs.Rules.{allows, is_allowed, is_page_list, is_wrong, rose};
ghost use Rattle.pool_rules.specs.State.{state_of};
ghost use Rattle.pool_tables.specs.FrameItems.{item_of};
ghost use Rattle.pool_tables.specs.FrameQueries.{is_owned};
ghost use Rattle.pool_tables.specs.PageRecords.{record_at};
ghost use Rattle.pool_tables.specs.PoolPages.{loader_number};
ghost use Rattle.residency.specs.Internal.Tables.{AreLegalTables, AreTables, number_of, pins_by_records};

use crate::nexts::next_in;
use crate::tables::{Tables, frame_id};
use crate::{Entry, Layout, Next, Spoilt, What};
use geom_core::limits::PAGE_BYTES;
use journal::{all_below, ascends};
use pool_tables::{FrameId, FrameItem, MakerId, PageTable, is_in_snapshot};

/// Whether the count of faults rose, or was and is at its maximum.
fn rose(before: u64, after: u64) -> bool
    ensures { result ≡ rose before after }
{
    before < after || before == u64::MAX && after == u64::MAX
}

/// Whether the bytes were wrong as the entry says.
fn is_wrong(why: &Spoilt) -> bool
    ensures { result ≡ is_wrong why.now }
{
    match why {
        Spoilt::Digest { stated, found } => stated != found,
        Spoilt::Grammar { rule, offset } => 1 <= *rule && *rule <= 4 && *offset < PAGE_BYTES,
        Spoilt::Short { got } => *got < PAGE_BYTES,
    }
}

/// Whether the answer is to take this page for this victim.
fn is_take(next: Next, page: u32, victim: Option<u32>) -> bool
    ensures { result ≡ is_take next page victim }
{
    match next {
        Next::Take {
            page: p,
            victim: Some(v),
        } => p == page && victim == Some(v),
        Next::Take {
            page: p,
            victim: None,
        } => p == page && victim.is_none(),
        Next::Full { .. } | Next::Busy { .. } | Next::Nothing => false,
    }
}

/// Whether the answer is that no page can be evicted.
fn is_full(next: Next) -> bool
    ensures { result ≡ is_full next }
{
    matches!(next, Next::Full { .. })
}

/// Whether the pages ascend, each below the number of pages.
fn is_page_list(layout: &Layout, pages: &[u32]) -> bool
    ensures { result ≡ is_page_list layout.now pages.now }
{
    ascends(pages) && all_below(layout.pages, pages)
}

/// Whether the frame of the item is live and owned by the maker.
fn is_owned(item: &FrameItem, by: MakerId) -> bool
    ensures { result ≡ is_owned by.0 (Some item.now) }
{
    item.ended_at.is_none() && item.owner == by
}

/// Whether the frame is live and owned by the maker.
fn owns(tables: &Tables, by: MakerId, frame: FrameId) -> bool
    ensures { result ≡ is_owned by.0 (item_of tables.now.frames frame.0) }
{
    match tables.frames.get(frame) {
        Some(item) => is_owned(item, by),
        None => false,
    }
}

/// Whether the maker is loading the page.
fn loads(pages: &PageTable, by: MakerId, page: u32) -> bool
    ensures { result ≡ holds (loader_number (record_at pages.now.records page)) by.0 }
{
    match pages.get(page).loader {
        Some(maker) => maker == by,
        None => false,
    }
}

/// Whether each of these pages is resident.
fn all_resident(pages: &PageTable, numbers: &[u32]) -> bool
    ensures { result ≡ list_all (λ p. (record_at pages.now.records p).resident) numbers.now }
{
    numbers.iter().all(|page| pages.get(*page).resident)
}

/// Whether one of these pages is resident.
fn any_resident(pages: &PageTable, numbers: &[u32]) -> bool
    ensures { result ≡ list_any (λ p. (record_at pages.now.records p).resident) numbers.now }
{
    numbers.iter().any(|page| pages.get(*page).resident)
}

/// Whether the frame of the item pins the page.
fn is_pinned_by(pages: &PageTable, item: &FrameItem, page: u32) -> bool
    ensures { result ≡ pins_by_records pages.now.records item.now page }
{
    let page_record = pages.get(page);
    item.pins.contains(page)
        || page_record.resident && is_in_snapshot(item.snapshot, page_record.installed_at)
}

/// Whether the frame of the item pins each of these pages.
fn all_pinned(pages: &PageTable, item: &FrameItem, numbers: &[u32]) -> bool
    ensures { result ≡ list_all (λ p. pins_by_records pages.now.records item.now p) numbers.now }
{
    numbers.iter().all(|page| is_pinned_by(pages, item, *page))
}

/// Whether a Pin is allowed.
fn allows_pin(tables: &Tables, by: MakerId, frame: FrameId) -> bool
    ensures { (layout : Layout) (journal : List Entry) → AreTables layout journal tables.now →
        result ≡ allows layout (state_of layout journal) journal by.0 (Pin frame.0) }
{
    owns(tables, by, frame) || tables.frames.get(frame).is_none()
}

/// Whether a Settle is allowed.
fn allows_settle(
    tables: &Tables,
    layout: &Layout,
    by: MakerId,
    frame: FrameId,
    pages: &[u32],
    missing: &[u32],
) -> bool
    ensures { (journal : List Entry) → AreTables layout.now journal tables.now →
        result ≡ allows layout.now (state_of layout.now journal) journal by.0
        (Settle frame.0 pages.now missing.now) }
{
    owns(tables, by, frame)
        && is_page_list(layout, pages)
        && is_page_list(layout, missing)
        && all_resident(&tables.pages, pages)
        && !any_resident(&tables.pages, missing)
}

/// Whether an Ask is allowed.
fn allows_ask(tables: &Tables, layout: &Layout, by: MakerId, frame: FrameId, pages: &[u32]) -> bool
    ensures { (journal : List Entry) → AreTables layout.now journal tables.now →
        result ≡ allows layout.now (state_of layout.now journal) journal by.0
        (Ask frame.0 pages.now) }
{
    owns(tables, by, frame) && is_page_list(layout, pages) && !any_resident(&tables.pages, pages)
}

/// Whether the frame of the item is owned by the maker and pins each of these pages, which must ascend.
fn can_narrow(pages: &PageTable, item: &FrameItem, by: MakerId, kept: &[u32]) -> bool
    ensures { result ≡ (is_owned by.0 (Some item.now) && (ascends kept.now
        && list_all (pins_by_records pages.now.records item.now) kept.now)) }
{
    is_owned(item, by) && ascends(kept) && all_pinned(pages, item, kept)
}

/// Whether a Narrow is allowed.
fn allows_narrow(tables: &Tables, by: MakerId, frame: FrameId, pages: &[u32]) -> bool
    ensures { (layout : Layout) (journal : List Entry) → AreTables layout journal tables.now →
        result ≡ allows layout (state_of layout journal) journal by.0 (Narrow frame.0 pages.now) }
{
    match tables.frames.get(frame) {
        Some(item) => can_narrow(&tables.pages, item, by, pages),
        None => false,
    }
}

/// Whether the pool is not stopped, and a loader may next take this page for this victim.
fn is_next_take(
    tables: &Tables,
    layout: &Layout,
    frame: Option<FrameId>,
    page: u32,
    victim: Option<u32>,
) -> bool
    requires layout_bounds { InBounds layout.now }
    ensures { (journal : List Entry) → AreLegalTables layout.now journal tables.now →
        result ≡ (not (state_of layout.now journal).stopped
        && is_take (next_after layout.now journal (number_of frame)) page victim) }
{
    !tables.stopped && is_take(next_in(tables, layout, frame), page, victim)
}

/// Whether a Take is allowed.
fn allows_take(
    tables: &Tables,
    layout: &Layout,
    by: MakerId,
    frame: Option<FrameId>,
    page: u32,
    victim: Option<u32>,
) -> bool
    requires layout_bounds { InBounds layout.now }
    ensures { (journal : List Entry) → AreLegalTables layout.now journal tables.now →
        result ≡ allows layout.now (state_of layout.now journal) journal by.0
        (Take (number_of frame) page victim) }
{
    if !is_next_take(tables, layout, frame, page, victim) {
        return false;
    }
    match frame {
        Some(frame) => owns(tables, by, frame),
        None => true,
    }
}

/// Whether a Full is allowed.
fn allows_full(tables: &Tables, layout: &Layout, by: MakerId, frame: FrameId) -> bool
    requires layout_bounds { InBounds layout.now }
    ensures { (journal : List Entry) → AreLegalTables layout.now journal tables.now →
        result ≡ allows layout.now (state_of layout.now journal) journal by.0 (Full frame.0) }
{
    !tables.stopped && owns(tables, by, frame) && is_full(next_in(tables, layout, Some(frame)))
}

/// Whether the entry is allowed next.
pub fn allows(tables: &Tables, layout: &Layout, entry: &Entry) -> bool
    requires layout_bounds { InBounds layout.now }
    ensures { (journal : List Entry) → AreLegalTables layout.now journal tables.now →
        result ≡ is_allowed layout.now journal entry.now }
{
    let by = MakerId(entry.by);
    match &entry.what {
        What::Pin { frame } => allows_pin(tables, by, FrameId(*frame)),
        What::Settle {
            frame,
            pages,
            missing,
        } => {
            let frame = FrameId(*frame);
            allows_settle(
                tables,
                layout,
                by,
                frame,
                pages.as_slice(),
                missing.as_slice(),
            )
        }
        What::Ask { frame, pages } => {
            allows_ask(tables, layout, by, FrameId(*frame), pages.as_slice())
        }
        What::Narrow { frame, pages } => {
            allows_narrow(tables, by, FrameId(*frame), pages.as_slice())
        }
        What::Unpin { frame } => owns(tables, by, FrameId(*frame)),
        What::Take {
            frame,
            page,
            victim,
        } => allows_take(tables, layout, by, frame_id(*frame), *page, *victim),
        What::Install { page, .. } | What::Starve { page } => loads(&tables.pages, by, *page),
        What::Fail {
            page,
            before,
            after,
        } => {
            loads(&tables.pages, by, *page)
                && rose(*before, *after)
                && tables.makers.last_fault(by) <= *before
        }
        What::Spoil { page, why } => loads(&tables.pages, by, *page) && is_wrong(why),
        What::Full { frame } => allows_full(tables, layout, by, FrameId(*frame)),
        What::Stop => !tables.stopped,
    }
}
