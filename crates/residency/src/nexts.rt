//! What a loader may do next, and which page it evicts for a page.

ghost use Rattle.std.specs.Prelude.{◌≡◌, List};
ghost use Rattle.journal.specs.declared.entries.Entry.{Entry};
ghost use Rattle.journal.specs.Layout.{InBounds};
ghost use Rattle.pool_rules.specs.Next.{next_after, next_at, next_without};
ghost use Rattle.journal.specs.declared.layouts.Layout.{Layout};
ghost use Rattle.pool_rules.specs.State.{state_of};
ghost use Rattle.pool_rules.specs.Victim.{victim_after};
ghost use Rattle.residency.specs.Internal.Tables.{AreLegalTables, number_of};

use crate::tables::Tables;
use crate::{Layout, Next};
use pool_tables::FrameId;

/// Returns the page to evict for the page, if any may be evicted.
pub fn victim_for(tables: &Tables, layout: &Layout, page: u32) -> Option<u32>
    requires layout_bounds { InBounds layout.now }
    ensures { (journal : List Entry) → AreLegalTables layout.now journal tables.now →
        result ≡ victim_after layout.now journal page }
{
    tables
        .pages
        .first_evictable(tables.frames.latest_snapshot(), layout.uppers_of(page))
}

/// Returns what a loader may do with a page that can be taken.
fn next_at(tables: &Tables, layout: &Layout, page: u32) -> Next
    requires layout_bounds { InBounds layout.now }
    ensures { (journal : List Entry) → AreLegalTables layout.now journal tables.now →
        result ≡ next_at layout.now (state_of layout.now journal) page }
{
    if tables.pages.held() < u64::from(layout.slots) {
        return Next::Take { page, victim: None };
    }
    match victim_for(tables, layout, page) {
        Some(victim) => Next::Take {
            page,
            victim: Some(victim),
        },
        None => Next::Full { page },
    }
}

/// Returns what a loader may do if no page can be taken.
fn next_without(tables: &Tables, frame: Option<FrameId>) -> Next
    ensures { (layout : Layout) (journal : List Entry) → AreLegalTables layout journal tables.now →
        result ≡ next_without (state_of layout journal) (number_of frame) }
{
    let Some(frame) = frame else {
        return Next::Nothing;
    };
    match tables
        .wants
        .first_loading(&tables.frames, &tables.pages, frame)
    {
        Some(want) => Next::Busy { page: want.page },
        None => Next::Nothing,
    }
}

/// Returns what a loader may do next for the frame, or for all frames if none is given.
pub fn next_in(tables: &Tables, layout: &Layout, frame: Option<FrameId>) -> Next
    requires layout_bounds { InBounds layout.now }
    ensures { (journal : List Entry) → AreLegalTables layout.now journal tables.now →
        result ≡ next_after layout.now journal (number_of frame) }
{
    let wanted = tables
        .wants
        .first_takeable(&tables.frames, &tables.pages, layout, frame);
    match wanted {
        Some(want) => next_at(tables, layout, want.page),
        None => next_without(tables, frame),
    }
}
