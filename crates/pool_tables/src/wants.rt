ghost use Rattle.std.specs.Prelude.{◌≡◌, ◌==◌, ◌&&◌, ◌+◌, ◌≤◌, ◌++◌, [], ℕ, Option, OnErr, OnOk, count_by, find, if◌then◌else◌, length, map, true, false};
ghost use Rattle.std.specs.List.Sorted.{IsStrictlySortedBy};
ghost use Rattle.std.specs.Map.{keys_of};
ghost use Rattle.std.specs.Option.{option_map};
ghost use Rattle.std.specs.Ordering.{nat_cmp};
ghost use Rattle.std.specs.Vec.{vec_capacity};
ghost use Rattle.pool_rules.specs.State.{waits_for};
ghost use Rattle.pool_tables.specs.declared.frame_item.FrameId.{FrameId};
ghost use Rattle.pool_tables.specs.FrameItems.{installed_item, item_of, pin_count};
ghost use Rattle.pool_tables.specs.WantQueue.{closed_up, counts_in, is_loading_in, is_takeable_in, is_waiting, of_page, standing, stands};

use crate::frame_item::FrameId;
use crate::frames::FrameTable;
use crate::page_table::PageTable;
use crate::queued_want::QueuedWant;
use crate::want_rules::{is_loading, is_takeable, is_waiting, stands};
use geom_core::Memory;
use journal::Layout;
use pool_rules::Want;
use std::alloc::Global;
use std::marker::Model;

/// The wants in the order of being made, with some that are over. So no entry has to remove wants: a search passes
/// those that are over, and a Settle or Ask closes the list up if at least half of it is over. A contract
/// sees the list and how many wants there is room for.
#[derive(Debug, Drop)]
pub struct WantList {
    wants: Vec<QueuedWant>,
}

impl Model for WantList {
    ghost use Rattle.pool_tables.specs.WantQueue.{WantQueue};

    ghost Value = { WantQueue };

    ghost use Rattle.std.specs.Vec.{vec_capacity};

    ghost view = { λ list. record {
      wants = list.wants.items;
      capacity = vec_capacity list.wants;
    } };
}

/// Returns how many of the wants are not over.
fn standing_count(wants: &[QueuedWant], frames: &FrameTable, pages: &PageTable) -> usize
    ensures { result ≡ count_by (stands (counts_in pages.now.records frames.now)) wants.now }
{
    wants
        .iter()
        .filter(|want| stands(**want, frames, pages))
        .count()
}

/// Removes the wants that are over if at least half of them are.
fn close_up(wants: &mut Vec<QueuedWant>, frames: &FrameTable, pages: &PageTable)
    ensures wants { wants.new.items
        ≡ closed_up (counts_in pages.now.records frames.now) wants.old.items }
    ensures len { length wants.new.items ≤ length wants.old.items }
    ensures capacity { vec_capacity wants.new ≡ vec_capacity wants.old }
{
    if standing_count(wants, frames, pages) <= wants.len() / 2 {
        wants.retain(|want| stands(*want, frames, pages));
    }
}

/// Appends a want like this one for each of the pages.
fn push_each(wants: &mut Vec<QueuedWant>, like: QueuedWant, pages: &[u32])
    requires room { length wants.old.items + length pages.now ≤ vec_capacity wants.old }
    ensures { wants.new.items ≡ wants.old.items ++ map (of_page like) pages.now }
{
    for page in pages {
        let mut want = like;
        want.page = *page;
        let _pushed = wants.push(want);
    }
}

/// Returns the first want that is not over, is for the frame, or for any if none is given, and whose page can be
/// taken.
fn first_takeable(
    wants: &[QueuedWant],
    frames: &FrameTable,
    pages: &PageTable,
    layout: &Layout,
    frame: Option<FrameId>,
) -> Option<Want>
    ensures { result ≡ find
        (is_takeable_in layout.now pages.now.records (option_map (λ (f : FrameId). f.0) frame))
        (standing (counts_in pages.now.records frames.now) wants.now) }
{
    for queued in wants {
        if is_takeable(*queued, frames, pages, layout, frame) {
            return Some(queued.want());
        }
    }
    None
}

/// Returns the frame's first want that is not over and whose page is being loaded.
fn first_loading(
    wants: &[QueuedWant],
    frames: &FrameTable,
    pages: &PageTable,
    frame: FrameId,
) -> Option<Want>
    ensures { result ≡ find (is_loading_in pages.now.records frame.0)
        (standing (counts_in pages.now.records frames.now) wants.now) }
{
    for queued in wants {
        if is_loading(*queued, frames, pages, frame) {
            return Some(queued.want());
        }
    }
    None
}

/// Records in the want's frame that the page was installed, if the frame waits for it by this want. Returns 1 if
/// the frame pins the page only from now on, else 0.
fn install_for(want: QueuedWant, frames: &mut FrameTable, pages: &PageTable, page: u32) -> usize
    ensures items { (n : ℕ) → item_of frames.new n
        ≡ (if is_waiting (counts_in pages.now.records frames.old) page want && (want.frame.0 == n)
        then option_map (installed_item page) (item_of frames.old n) else item_of frames.old n) }
    ensures last_asked { frames.new.last_asked ≡ frames.old.last_asked }
    ensures ordered { IsStrictlySortedBy nat_cmp (keys_of frames.old.items) →
        IsStrictlySortedBy nat_cmp (keys_of frames.new.items) }
    ensures pins { (p : ℕ) → pin_count frames.new.items p
        ≡ pin_count frames.old.items p + (if page == p then result else 0) }
    ensures one { result ≤ 1 }
{
    if is_waiting(want, frames, pages, page) && frames.install(want.frame, page) {
        return 1;
    }
    0
}

/// Records in each frame that waits for the page that it was installed. Returns how many frames pin it only from
/// now on.
fn install(wants: &[QueuedWant], frames: &mut FrameTable, pages: &PageTable, page: u32) -> usize
    ensures items { (n : ℕ) → item_of frames.new n
        ≡ (if waits_for (standing (counts_in pages.now.records frames.old) wants.now) n page
        then option_map (installed_item page) (item_of frames.old n) else item_of frames.old n) }
    ensures last_asked { frames.new.last_asked ≡ frames.old.last_asked }
    ensures ordered { IsStrictlySortedBy nat_cmp (keys_of frames.old.items) →
        IsStrictlySortedBy nat_cmp (keys_of frames.new.items) }
    ensures pins { (p : ℕ) → pin_count frames.new.items p
        ≡ pin_count frames.old.items p + (if page == p then result else 0) }
{
    let mut pins = 0;
    for want in wants {
        pins += install_for(*want, frames, pages, page);
    }
    pins
}

impl WantList {
    /// Returns a list without wants. Takes no memory.
    pub fn new(alloc: Global) -> WantList
        ensures { result.wants ≡ [] }
    {
        WantList {
            wants: Vec::new(alloc),
        }
    }

    /// Makes room for this many wants more.
    pub fn reserve(&mut self, more: usize) -> Result<(), Memory>
        ensures wants { self.new.wants ≡ self.old.wants }
        ensures room { OnOk result (length self.new.wants + more ≤ self.new.capacity) }
        ensures unchanged { OnErr result (self.new ≡ self.old) }
    {
        self.wants.reserve(more)?;
        Ok(())
    }

    /// Closes the list up if at least half of it is over, and appends a want like this one for each of the pages.
    /// The list must have room for these. The tables of frames and pages already know of the entry.
    pub fn append(
        &mut self,
        frames: &FrameTable,
        pages: &PageTable,
        like: QueuedWant,
        wanted: &[u32],
    )
        requires room { length self.old.wants + length wanted.now ≤ self.old.capacity }
        ensures { self.new.wants
            ≡ closed_up (counts_in pages.now.records frames.now) self.old.wants
            ++ map (of_page like) wanted.now }
    {
        close_up(&mut self.wants, frames, pages);
        push_each(&mut self.wants, like, wanted);
    }

    /// Returns the first want of the frame, or of any if none is given, whose page can be taken. Passes the wants
    /// before it.
    pub fn first_takeable(
        &self,
        frames: &FrameTable,
        pages: &PageTable,
        layout: &Layout,
        frame: Option<FrameId>,
    ) -> Option<Want>
        ensures { result ≡ find
            (is_takeable_in layout.now pages.now.records (option_map (λ (f : FrameId). f.0) frame))
            (standing (counts_in pages.now.records frames.now) self.now.wants) }
    {
        first_takeable(&self.wants, frames, pages, layout, frame)
    }

    /// Returns the frame's first want whose page is being loaded. Passes the wants before it.
    pub fn first_loading(
        &self,
        frames: &FrameTable,
        pages: &PageTable,
        frame: FrameId,
    ) -> Option<Want>
        ensures { result ≡ find (is_loading_in pages.now.records frame.0)
            (standing (counts_in pages.now.records frames.now) self.now.wants) }
    {
        first_loading(&self.wants, frames, pages, frame)
    }

    /// Records in each frame that waits for the page that it was installed, before the table of pages knows of it.
    /// Returns how many frames pin it only from now on. Passes all wants.
    pub fn install(&self, frames: &mut FrameTable, pages: &PageTable, page: u32) -> usize
        ensures items { (n : ℕ) → item_of frames.new n
            ≡ (if waits_for (standing (counts_in pages.now.records frames.old) self.now.wants) n
            page then option_map (installed_item page) (item_of frames.old n)
            else item_of frames.old n) }
        ensures last_asked { frames.new.last_asked ≡ frames.old.last_asked }
        ensures ordered { IsStrictlySortedBy nat_cmp (keys_of frames.old.items) →
            IsStrictlySortedBy nat_cmp (keys_of frames.new.items) }
        ensures pins { (p : ℕ) → pin_count frames.new.items p
            ≡ pin_count frames.old.items p + (if page == p then result else 0) }
    {
        install(&self.wants, frames, pages, page)
    }
}
