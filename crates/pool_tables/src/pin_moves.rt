ghost use Rattle.std.specs.Prelude.{◌+◌, ◌<◌, ◌≤◌, ◌≡◌, ◌==◌, ◌&&◌, ◌^◌, ℕ, if◌then◌else◌, length, true};
ghost use Rattle.pool_rules.specs.Numbers.{is_among};
ghost use Rattle.pool_tables.specs.Changes.{times};
ghost use Rattle.pool_tables.specs.PageRecords.{record_at};
ghost use Rattle.pool_tables.specs.PinLists.{flagged, pinned_pages};
ghost use Rattle.pool_tables.specs.PinMoves.{MovesPins};

use crate::explicit_pins::ExplicitPins;
use crate::page_table::PageTable;

/// Records that one frame more pins each of the pages explicitly.
pub fn pin_each(table: &mut PageTable, pages: &[u32])
    requires page_range { (p : ℕ) → is_among pages.now p ≡ true → p < length table.old.records }
    requires room { (p : ℕ) → (record_at table.old.records p).pins + times pages.now p < 2 ^ 64 }
    ensures { MovesPins (λ p. 0) (times pages.now) table.old table.new }
{
    for page in pages {
        table.pin(*page, 1);
    }
}

/// Records that one frame less pins each of the pages explicitly.
fn unpin_each(table: &mut PageTable, pages: &[u32])
    requires pinned { (p : ℕ) → times pages.now p ≤ (record_at table.old.records p).pins }
    ensures { MovesPins (times pages.now) (λ p. 0) table.old table.new }
{
    for page in pages {
        table.unpin(*page);
    }
}

/// Records that one frame less pins the page explicitly, if it is flagged.
fn unpin_if(table: &mut PageTable, is_flagged: bool, page: u32)
    requires pinned { is_flagged ≡ true → 0 < (record_at table.old.records page).pins }
    ensures { MovesPins (λ p. if is_flagged && (page == p) then 1 else 0) (λ p. 0)
        table.old table.new }
{
    if is_flagged {
        table.unpin(page);
    }
}

/// Records that one frame less pins each of the missing pages that are flagged.
fn unpin_flagged(table: &mut PageTable, missing: &[u32], flags: &[bool])
    requires flag_a_page { length flags.now ≡ length missing.now }
    requires pinned { (p : ℕ) →
        times (flagged missing.now flags.now) p ≤ (record_at table.old.records p).pins }
    ensures { MovesPins (times (flagged missing.now flags.now)) (λ p. 0) table.old table.new }
{
    for place in 0..missing.len() {
        unpin_if(table, flags[place], missing[place]);
    }
}

/// Records that the frame no longer pins what it pins explicitly.
pub fn unpin_item(table: &mut PageTable, pins: &ExplicitPins)
    requires pinned { (p : ℕ) →
        times (pinned_pages pins.now) p ≤ (record_at table.old.records p).pins }
    ensures { MovesPins (times (pinned_pages pins.now)) (λ p. 0) table.old table.new }
{
    unpin_each(table, pins.named());
    unpin_flagged(table, pins.missing(), pins.flags());
}
