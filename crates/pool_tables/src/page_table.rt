ghost use Rattle.std.specs.Prelude.{◌≡◌, ◌≢◌, ◌+◌, ◌-◌, ◌^◌, ◌<◌, ◌≤◌, ℕ, length, true, false, None, Some, is_some, count_by, IfOk};
ghost use Rattle.journal.specs.Layout.{ascends};
ghost use Rattle.pool_rules.specs.Numbers.{is_among};
ghost use Rattle.pool_tables.specs.Changes.{AreUsed, HaveMoreDependents, HaveFewerDependents, fewer_dependents, fewer_pins, more_dependents, more_pins, times};
ghost use Rattle.pool_tables.specs.Eviction.{may_be_evicted, IsFirst};
ghost use Rattle.pool_tables.specs.PageRecords.{record_at, with_record, is_record_held, opening_records, residents, IsUsedBefore};

use crate::free_pages::{first_free, record_of};
use crate::page_list::PageList;
use crate::page_record::{MakerId, PageRecord, opening_record};
use geom_core::Memory;
use std::alloc::Global;
use std::marker::Model;

/// A record by page, and the resident pages that are no root pages in the order in which they may come to
/// be evicted: the least recently used first. A contract sees the records.
#[derive(Debug, Drop)]
pub struct PageTable {
    /// The number of root pages.
    roots: u32,
    /// By page.
    records: Vec<PageRecord>,
    /// The resident pages that are no root pages, in the order of use.
    order: PageList,
    /// How many pages are resident or being loaded.
    held: u64,
}

impl Model for PageTable {
    ghost use Rattle.pool_tables.specs.PageRecords.{PageRecords};

    ghost Value = { PageRecords };

    ghost use Rattle.pool_tables.specs.Internal.UseOrder.{IsUseOrder, IsHeldCount};

    ghost view = { λ table. record { roots = table.roots; records = table.records.items } };

    ghost invariant = { λ table. IsUseOrder table.roots table.records.items table.order
        × IsHeldCount table.records.items table.held };
}

/// Returns the records of the pages after no entry.
fn opening_records(alloc: Global, pages: u32, roots: u32) -> Result<Vec<PageRecord>, Memory>
    ensures { IfOk result (λ records. records.items ≡ (opening_records pages roots).records) }
{
    let numbers = 0..pages;
    Ok(
        numbers
            .map(|page| opening_record(roots, page))
            .collect(alloc)?,
    )
}

impl PageTable {
    /// Returns the table after no entry: the root pages, which are the first ones, are resident.
    pub fn new(alloc: Global, pages: u32, roots: u32) -> Result<PageTable, Memory>
        requires root_range { roots ≤ pages }
        ensures { IfOk result (λ table. table ≡ opening_records pages roots) }
    {
        Ok(PageTable {
            roots,
            records: opening_records(alloc, pages, roots)?,
            order: PageList::new(alloc, pages)?,
            held: u64::from(roots),
        })
    }

    /// Returns the resident pages, ascending.
    pub fn residents(&self, alloc: Global) -> Result<Vec<u32>, Memory>
        ensures { IfOk result (λ pages. pages.items ≡ residents self.now.records) }
    {
        let numbers = 0..self.order.capacity();
        Ok(
            numbers
                .filter(|page| self.get(*page).resident)
                .collect(alloc)?,
        )
    }

    /// Returns the page's record; `NO_RECORD` if there is no such page.
    pub fn get(&self, page: u32) -> PageRecord
        ensures { result ≡ record_at self.now.records page }
    {
        record_of(&self.records, page)
    }

    /// Returns the number of root pages.
    pub fn roots(&self) -> u32
        ensures { result ≡ self.now.roots }
    {
        self.roots
    }

    /// Returns how many pages are resident or being loaded.
    pub fn held(&self) -> u64
        ensures { result ≡ count_by is_record_held self.now.records }
    {
        self.held
    }

    /// Returns the page to evict for one that has these uppers: of the resident pages that are no root pages, that
    /// no frame pins, explicitly or by the snapshot, that no page depends on and that are none of the uppers,
    /// the least recently used, of equals the greatest number. Passes the pages before it in the order of
    /// use.
    pub fn first_evictable(&self, snapshot: Option<u64>, uppers: &[u32]) -> Option<u32>
        requires ascending { ascends uppers.now ≡ true }
        ensures { IsFirst (λ p. (record_at self.now.records p).last_used)
            (may_be_evicted self.now snapshot uppers.now) result }
    {
        first_free(&self.records, self.order.iter(), snapshot, uppers)
    }

    /// Removes a resident page that is no root page.
    pub fn evict(&mut self, page: u32)
        requires resident { (record_at self.old.records page).resident ≡ true }
        requires idle { (record_at self.old.records page).loader ≡ None }
        requires no_root { self.old.roots ≤ page }
        ensures { self.new ≡ with_record self.old page
            (record (record_at self.old.records page) { resident = false }) }
    {
        self.order.remove(page);
        let mut record = self.records[page as usize];
        record.resident = false;
        self.records[page as usize] = record;
        self.held -= 1;
    }

    /// Records that the maker begins to load the page.
    pub fn begin_load(&mut self, page: u32, maker: MakerId)
        requires page_range { page < length self.old.records }
        requires absent { (record_at self.old.records page).resident ≡ false }
        requires idle { (record_at self.old.records page).loader ≡ None }
        ensures { self.new ≡ with_record self.old page
            (record (record_at self.old.records page) { loader = Some maker }) }
    {
        let mut record = self.records[page as usize];
        record.loader = Some(maker);
        self.records[page as usize] = record;
        self.held += 1;
    }

    /// Records that the load of the page ended at this count of entries, and that it is not resident.
    pub fn end_load(&mut self, page: u32, count: u64)
        requires absent { (record_at self.old.records page).resident ≡ false }
        requires loading { is_some (record_at self.old.records page).loader ≡ true }
        ensures { self.new ≡ with_record self.old page
            (record (record_at self.old.records page) { loader = None; load_ended_at = count }) }
    {
        let mut record = self.records[page as usize];
        record.loader = None;
        record.load_ended_at = count;
        self.records[page as usize] = record;
        self.held -= 1;
    }

    /// Records that the load of the page ended at this count of entries, and that it is resident and used
    /// from then on.
    pub fn install(&mut self, page: u32, count: u64)
        requires no_root { self.old.roots ≤ page }
        requires absent { (record_at self.old.records page).resident ≡ false }
        requires loading { is_some (record_at self.old.records page).loader ≡ true }
        requires later { (p : ℕ) → (record_at self.old.records p).last_used < count }
        ensures { self.new ≡ with_record self.old page (record (record_at self.old.records page) {
          resident = true;
          loader = None;
          last_used = count;
          installed_at = count;
          load_ended_at = count;
        }) }
    {
        self.order.push(page);
        let mut record = self.records[page as usize];
        record.resident = true;
        record.loader = None;
        record.last_used = count;
        record.installed_at = count;
        record.load_ended_at = count;
        self.records[page as usize] = record;
    }

    /// Records that a resident page is used at this count of entries, after all pages that were used before it
    /// and those of a greater number that are used with it.
    pub fn use_page(&mut self, page: u32, count: u64)
        requires resident { (record_at self.old.records page).resident ≡ true }
        requires later { (p : ℕ) → p ≢ page →
            IsUsedBefore count page p (record_at self.old.records p).last_used }
        ensures { self.new ≡ with_record self.old page
            (record (record_at self.old.records page) { last_used = count }) }
    {
        let mut record = self.records[page as usize];
        record.last_used = count;
        self.records[page as usize] = record;
        if self.roots <= page {
            self.order.move_to_end(page);
        }
    }

    /// Records that these resident pages, which ascend, are used at this count of entries, after all uses before.
    pub fn use_pages(&mut self, pages: &[u32], count: u64)
        requires ascending { ascends pages.now ≡ true }
        requires resident { (p : ℕ) → is_among pages.now p ≡ true →
            (record_at self.old.records p).resident ≡ true }
        requires later { (p : ℕ) → (record_at self.old.records p).last_used < count }
        ensures { AreUsed count pages.now self.old self.new }
    {
        let mut left = pages.len();
        while left > 0 {
            left -= 1;
            self.use_page(pages[left], count);
        }
    }

    /// Replaces the page's record by one that is as resident, as loading and as used.
    fn replace(&mut self, page: u32, new: PageRecord)
        requires page_range { page < length self.old.records }
        requires resident { new.resident ≡ (record_at self.old.records page).resident }
        requires loader { new.loader ≡ (record_at self.old.records page).loader }
        requires last_used { new.last_used ≡ (record_at self.old.records page).last_used }
        ensures { self.new ≡ with_record self.old page new }
    {
        self.records[page as usize] = new;
    }

    /// Records that this number of frames more pin the page explicitly.
    pub fn pin(&mut self, page: u32, frames: u64)
        requires page_range { page < length self.old.records }
        requires room { (record_at self.old.records page).pins + frames < 2 ^ 64 }
        ensures { self.new ≡ with_record self.old page
            (more_pins frames (record_at self.old.records page)) }
    {
        let mut pinned = self.get(page);
        pinned.pins += frames;
        self.replace(page, pinned);
    }

    /// Records that one frame less pins the page explicitly.
    pub fn unpin(&mut self, page: u32)
        requires page_range { page < length self.old.records }
        requires pinned { 0 < (record_at self.old.records page).pins }
        ensures { self.new ≡ with_record self.old page
            (fewer_pins 1 (record_at self.old.records page)) }
    {
        let mut unpinned = self.get(page);
        unpinned.pins -= 1;
        self.replace(page, unpinned);
    }

    /// Records that one page more depends on the page.
    fn add_dependent(&mut self, page: u32)
        requires page_range { page < length self.old.records }
        requires room { (record_at self.old.records page).dependents + 1 < 2 ^ 32 }
        ensures { self.new ≡ with_record self.old page
            (more_dependents 1 (record_at self.old.records page)) }
    {
        let mut upper = self.get(page);
        upper.dependents += 1;
        self.replace(page, upper);
    }

    /// Records that one page less depends on the page.
    fn remove_dependent(&mut self, page: u32)
        requires page_range { page < length self.old.records }
        requires counted { 0 < (record_at self.old.records page).dependents }
        ensures { self.new ≡ with_record self.old page
            (fewer_dependents 1 (record_at self.old.records page)) }
    {
        let mut upper = self.get(page);
        upper.dependents -= 1;
        self.replace(page, upper);
    }

    /// Records that a page with these uppers is now resident or being loaded.
    pub fn add_dependents(&mut self, uppers: &[u32])
        requires page_range { (p : ℕ) → is_among uppers.now p ≡ true → p < length self.old.records }
        requires room { (p : ℕ) →
            (record_at self.old.records p).dependents + times uppers.now p < 2 ^ 32 }
        ensures { HaveMoreDependents uppers.now self.old self.new }
    {
        for upper in uppers {
            self.add_dependent(*upper);
        }
    }

    /// Records that a page with these uppers is no longer resident or being loaded.
    pub fn remove_dependents(&mut self, uppers: &[u32])
        requires page_range { (p : ℕ) → is_among uppers.now p ≡ true → p < length self.old.records }
        requires counted { (p : ℕ) →
            times uppers.now p ≤ (record_at self.old.records p).dependents }
        ensures { HaveFewerDependents uppers.now self.old self.new }
    {
        for upper in uppers {
            self.remove_dependent(*upper);
        }
    }
}
