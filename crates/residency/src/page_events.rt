//! What entries change in the table of pages: explicit pins, and beginnings and ends of loads with the dependents
//! of the page's uppers.

ghost use Rattle.std.specs.Prelude.{◌≡◌, ◌+◌, ◌*◌, ◌^◌, ◌<◌, ◌≤◌, ℕ, None, Some, is_some, length, true, false};
ghost use Rattle.journal.specs.Layout.{uppers_of};
ghost use Rattle.pool_rules.specs.Numbers.{is_among};
ghost use Rattle.pool_tables.specs.Changes.{HaveFewerDependents, HaveMoreDependents, times};
ghost use Rattle.pool_tables.specs.FrameItems.{item_of, pins_in};
ghost use Rattle.pool_tables.specs.PageRecords.{record_at, with_record};
ghost use Rattle.pool_tables.specs.PinMoves.{MovesPins};

use crate::{Entry, Layout};
use pool_tables::{FrameId, FrameTable, MakerId, PageTable, pin_each, unpin_item};

/// Returns the count of entries with the next one.
pub fn next_count(journal: &[Entry]) -> u64
    ensures { result ≡ length journal.now + 1 }
{
    journal.len() as u64 + 1
}

/// Removes what the frame pins explicitly from the counts of pins by page.
pub fn unpin_frame(pages: &mut PageTable, frames: &FrameTable, frame: FrameId)
    requires counted { (p : ℕ) → pins_in (item_of frames.now frame.0) p
        ≤ (record_at pages.old.records p).pins }
    ensures { MovesPins (pins_in (item_of frames.now frame.0)) (λ p. 0) pages.old pages.new }
{
    if let Some(item) = frames.get(frame) {
        unpin_item(pages, &item.pins);
    }
}

/// Records that one frame more pins each of these pages explicitly.
pub fn pin_pages(pages: &mut PageTable, frames: &FrameTable, pinned: &[u32])
    requires page_range { (p : ℕ) → is_among pinned.now p ≡ true →
        p < length pages.old.records }
    requires once { (p : ℕ) → times pinned.now p ≤ 1 }
    requires counted { (p : ℕ) → (record_at pages.old.records p).pins ≤ 2 * length frames.now.items }
    ensures { MovesPins (λ p. 0) (times pinned.now) pages.old pages.new }
{
    // There are fewer than 2^63 frames, and each pins a page at most twice: the counts have room for one more.
    let _frames = frames.len();
    pin_each(pages, pinned);
}

/// Records that the page is no longer resident.
pub fn evict(pages: &mut PageTable, layout: &Layout, victim: u32)
    requires resident { (record_at pages.old.records victim).resident ≡ true }
    requires idle { (record_at pages.old.records victim).loader ≡ None }
    requires no_root { pages.old.roots ≤ victim }
    requires upper_range { (p : ℕ) → is_among (uppers_of layout.now victim) p ≡ true →
        p < length pages.old.records }
    requires counted { (p : ℕ) →
        times (uppers_of layout.now victim) p ≤ (record_at pages.old.records p).dependents }
    ensures { HaveFewerDependents (uppers_of layout.now victim)
        (with_record pages.old victim (record (record_at pages.old.records victim) {
          resident = false;
        })) pages.new }
{
    pages.evict(victim);
    pages.remove_dependents(layout.uppers_of(victim));
}

/// Records that the maker begins to load the page.
pub fn load(pages: &mut PageTable, layout: &Layout, page: u32, by: MakerId)
    requires page_range { page < length pages.old.records }
    requires absent { (record_at pages.old.records page).resident ≡ false }
    requires idle { (record_at pages.old.records page).loader ≡ None }
    requires upper_range { (p : ℕ) → is_among (uppers_of layout.now page) p ≡ true →
        p < length pages.old.records }
    requires room { (p : ℕ) →
        (record_at pages.old.records p).dependents + times (uppers_of layout.now page) p < 2 ^ 32 }
    ensures { HaveMoreDependents (uppers_of layout.now page)
        (with_record pages.old page (record (record_at pages.old.records page) {
          loader = Some by;
        })) pages.new }
{
    pages.begin_load(page, by);
    pages.add_dependents(layout.uppers_of(page));
}

/// Records that a load of the page ended without it.
pub fn lose(pages: &mut PageTable, layout: &Layout, page: u32, count: u64)
    requires absent { (record_at pages.old.records page).resident ≡ false }
    requires loading { is_some (record_at pages.old.records page).loader ≡ true }
    requires upper_range { (p : ℕ) → is_among (uppers_of layout.now page) p ≡ true →
        p < length pages.old.records }
    requires counted { (p : ℕ) →
        times (uppers_of layout.now page) p ≤ (record_at pages.old.records p).dependents }
    ensures { HaveFewerDependents (uppers_of layout.now page)
        (with_record pages.old page (record (record_at pages.old.records page) {
          loader = None;
          load_ended_at = count;
        })) pages.new }
{
    pages.end_load(page, count);
    pages.remove_dependents(layout.uppers_of(page));
}
