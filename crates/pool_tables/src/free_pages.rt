ghost use Rattle.std.specs.Prelude.{◌≡◌, find, true};
ghost use Rattle.journal.specs.Layout.{ascends};
ghost use Rattle.pool_tables.specs.Eviction.{is_candidate};
ghost use Rattle.pool_tables.specs.PageRecords.{record_at};

use crate::ascending::is_among_ascending;
use crate::page_list::PagesLeft;
use crate::page_record::{NO_RECORD, PageRecord};

/// Returns the page's record; `NO_RECORD` if there is no such page.
pub fn record_of(records: &[PageRecord], page: u32) -> PageRecord
    ensures { result ≡ record_at records.now page }
{
    match records.get(page as usize) {
        Some(record) => *record,
        None => NO_RECORD,
    }
}

/// Returns the first of the pages left that is free and none of the uppers.
pub fn first_free(
    records: &[PageRecord],
    mut left: PagesLeft<'_>,
    snapshot: Option<u64>,
    uppers: &[u32],
) -> Option<u32>
    requires ascending { ascends uppers.now ≡ true }
    ensures { result ≡ find (is_candidate records.now snapshot uppers.now) left.entry }
{
    while let Some(page) = left.next() {
        if record_of(records, page).is_free(snapshot) && !is_among_ascending(uppers, page) {
            return Some(page);
        }
    }
    None
}
