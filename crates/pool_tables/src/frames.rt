ghost use Rattle.std.specs.Prelude.{◌≡◌, ◌==◌, ◌+◌, ◌<◌, ◌≤◌, ◌^◌, ◌&&◌, ℕ, length, IfOk, IfSome, OnErr, OnOk, Some, [], true, if◌then◌else◌};
ghost use Rattle.std.specs.Option.{option_copied, option_map};
ghost use Rattle.journal.specs.Layout.{ascends};
ghost use Rattle.pool_tables.specs.FrameItems.{IsLatest, PutsItem, asked_item, ended_item, installed_item, item_in, item_of, narrowed_item, pin_count, pinned_item, pins_in, settled_item, snapshot_in};
ghost use Rattle.pool_tables.specs.PageRecords.{record_at};
ghost use Rattle.pool_tables.specs.PinMoves.{MovesPins};
ghost use Rattle.pool_tables.specs.Internal.SnapshotList.{IsSnapshotList};

use crate::explicit_pins::ExplicitPins;
use crate::frame_item::{FrameId, FrameItem};
use crate::page_record::MakerId;
use crate::page_table::PageTable;
use crate::pin_moves::unpin_item;
use crate::snapshot::{Snapshot, pop_stale};
use geom_core::Memory;
use std::alloc::Global;
use std::collections::BTreeMap;
use std::marker::Model;

/// An item for each frame that began, live or ended: a frame that had an entry may not begin again. A contract sees
/// the items by number.
#[derive(Debug, Drop)]
pub struct FrameTable {
    /// By number.
    items: BTreeMap<u32, FrameItem>,
    /// Snapshots by count, ascending. The last one is a live frame's, and each live frame's is listed.
    snapshots: Vec<Snapshot>,
    /// The count of entries at the last Settle or Ask of any frame; 0 if there was none.
    last_asked: u64,
}

impl Model for FrameTable {
    ghost use Rattle.pool_tables.specs.FrameItems.{FrameItems};

    ghost Value = { FrameItems };

    ghost use Rattle.pool_tables.specs.Internal.SnapshotList.{IsSnapshotList};

    ghost view = { λ table. record { items = table.items.entries; last_asked = table.last_asked } };

    ghost invariant = { λ table. IsSnapshotList table.items.entries table.snapshots.items };
}

/// Records a Pin: makes the frame's item, or renews it and removes its explicit pins from the counts by page.
fn pin_item(
    items: &mut BTreeMap<u32, FrameItem>,
    pages: &mut PageTable,
    alloc: Global,
    frame: FrameId,
    by: MakerId,
    count: u64,
) -> Result<(), Memory>
    requires counted { (p : ℕ) → pins_in (item_in items.old.entries frame.0) p
        ≤ (record_at pages.old.records p).pins }
    ensures pinned { OnOk result (PutsItem frame.0
        (Some (pinned_item by count (item_in items.old.entries frame.0)))
        items.old.entries items.new.entries) }
    ensures pins { OnOk result (MovesPins (pins_in (item_in items.old.entries frame.0)) (λ p. 0)
        pages.old pages.new) }
    ensures unchanged { OnErr result (items.new.entries ≡ items.old.entries) }
    ensures pages { OnErr result (pages.new ≡ pages.old) }
{
    if let Some(item) = items.get_mut(&frame.0) {
        unpin_item(pages, &item.pins);
        item.pin_again(by, count);
        return Ok(());
    }
    let item = FrameItem {
        owner: by,
        asked_at: 0,
        ended_at: None,
        snapshot: Some(count),
        pins: ExplicitPins::none(alloc),
    };
    items.insert(frame.0, item)?;
    Ok(())
}

/// Records a Settle of the frame.
fn settle_item(
    items: &mut BTreeMap<u32, FrameItem>,
    frame: FrameId,
    by: MakerId,
    count: u64,
    pins: ExplicitPins,
)
    ensures { PutsItem frame.0
        (option_map (settled_item by count pins) (item_in items.old.entries frame.0))
        items.old.entries items.new.entries }
{
    if let Some(item) = items.get_mut(&frame.0) {
        item.settle(by, count, pins);
    }
}

/// Records an Ask of the frame.
fn ask_item(items: &mut BTreeMap<u32, FrameItem>, frame: FrameId, count: u64)
    ensures { PutsItem frame.0
        (option_map (asked_item count) (item_in items.old.entries frame.0))
        items.old.entries items.new.entries }
{
    if let Some(item) = items.get_mut(&frame.0) {
        item.ask(count);
    }
}

/// Records a Narrow of the frame.
fn narrow_item(items: &mut BTreeMap<u32, FrameItem>, frame: FrameId, by: MakerId, pages: Vec<u32>)
    requires ascending { ascends pages.items ≡ true }
    ensures { PutsItem frame.0
        (option_map (narrowed_item by pages.items) (item_in items.old.entries frame.0))
        items.old.entries items.new.entries }
{
    if let Some(item) = items.get_mut(&frame.0) {
        item.narrow(by, pages);
    }
}

/// Records the Unpin of the frame.
fn end_item(items: &mut BTreeMap<u32, FrameItem>, frame: FrameId, count: u64)
    ensures { PutsItem frame.0
        (option_map (ended_item count) (item_in items.old.entries frame.0))
        items.old.entries items.new.entries }
{
    if let Some(item) = items.get_mut(&frame.0) {
        item.end(count);
    }
}

/// Records that the page was installed while the frame waited for it.
fn install_item(items: &mut BTreeMap<u32, FrameItem>, frame: FrameId, page: u32) -> bool
    ensures installed { PutsItem frame.0
        (option_map (installed_item page) (item_in items.old.entries frame.0))
        items.old.entries items.new.entries }
    ensures pins { (p : ℕ) → pin_count items.new.entries p
        ≡ pin_count items.old.entries p + (if result && (page == p) then 1 else 0) }
{
    match items.get_mut(&frame.0) {
        Some(item) => item.install(page),
        None => false,
    }
}

impl FrameTable {
    /// Returns a table without frames. Takes no memory.
    pub fn new(alloc: Global) -> FrameTable
        ensures items { result.items ≡ [] }
        ensures last_asked { result.last_asked ≡ 0 }
    {
        FrameTable {
            items: BTreeMap::new(alloc),
            snapshots: Vec::new(alloc),
            last_asked: 0,
        }
    }

    /// Returns how many frames began.
    pub fn len(&self) -> usize
        ensures frames { result ≡ length self.now.items }
        ensures few { result < 2 ^ 63 }
    {
        self.items.len()
    }

    /// Returns the frame's item, if it began.
    pub fn get(&self, frame: FrameId) -> Option<&FrameItem>
        ensures { option_copied result ≡ item_of self.now frame.0 }
    {
        self.items.get(&frame.0)
    }

    /// Returns the count of entries at the last Settle or Ask of any frame; 0 if there was none.
    pub fn last_asked(&self) -> u64
        ensures { result ≡ self.now.last_asked }
    {
        self.last_asked
    }

    /// Returns the latest snapshot of the live frames, if one has any.
    pub fn latest_snapshot(&self) -> Option<u64>
        ensures { IsLatest self.now.items result }
    {
        match self.snapshots.last().copied() {
            Some(last) => Some(last.count),
            None => None,
        }
    }

    /// Records a Pin of the frame at this count of entries, after all other snapshots, and removes the frame's
    /// explicit pins from the counts by page.
    pub fn pin(
        &mut self,
        pages: &mut PageTable,
        alloc: Global,
        frame: FrameId,
        by: MakerId,
        count: u64,
    ) -> Result<(), Memory>
        requires later { (n c : ℕ) → snapshot_in (item_of self.old n) ≡ Some c → c < count }
        requires counted { (p : ℕ) → pins_in (item_of self.old frame.0) p
            ≤ (record_at pages.old.records p).pins }
        ensures pinned { OnOk result (PutsItem frame.0
            (Some (pinned_item by count (item_of self.old frame.0)))
            self.old.items self.new.items) }
        ensures pins { OnOk result (MovesPins (pins_in (item_of self.old frame.0)) (λ p. 0)
            pages.old pages.new) }
        ensures last_asked { self.new.last_asked ≡ self.old.last_asked }
        ensures unchanged { OnErr result (self.new ≡ self.old) }
        ensures pages { OnErr result (pages.new ≡ pages.old) }
    {
        self.snapshots.reserve(1)?;
        pin_item(&mut self.items, pages, alloc, frame, by, count)?;
        let _pushed = self.snapshots.push(Snapshot {
            count,
            frame: frame.0,
        });
        Ok(())
    }

    /// Records a Settle of the frame, by its owner, at this count of entries.
    pub fn settle(&mut self, frame: FrameId, by: MakerId, count: u64, pins: ExplicitPins)
        ensures settled { PutsItem frame.0
            (option_map (settled_item by count pins) (item_of self.old frame.0))
            self.old.items self.new.items }
        ensures last_asked { self.new.last_asked ≡ count }
    {
        settle_item(&mut self.items, frame, by, count, pins);
        pop_stale(&mut self.snapshots, &self.items);
        self.last_asked = count;
    }

    /// Records an Ask of the frame at this count of entries.
    pub fn ask(&mut self, frame: FrameId, count: u64)
        ensures asked { PutsItem frame.0
            (option_map (asked_item count) (item_of self.old frame.0))
            self.old.items self.new.items }
        ensures last_asked { self.new.last_asked ≡ count }
    {
        ask_item(&mut self.items, frame, count);
        self.last_asked = count;
    }

    /// Records a Narrow of the frame, by its owner, to these pages.
    pub fn narrow(&mut self, frame: FrameId, by: MakerId, pages: Vec<u32>)
        requires ascending { ascends pages.items ≡ true }
        ensures narrowed { PutsItem frame.0
            (option_map (narrowed_item by pages.items) (item_of self.old frame.0))
            self.old.items self.new.items }
        ensures last_asked { self.new.last_asked ≡ self.old.last_asked }
    {
        narrow_item(&mut self.items, frame, by, pages);
        pop_stale(&mut self.snapshots, &self.items);
    }

    /// Records the Unpin of the frame at this count of entries, and frees its lists.
    pub fn unpin(&mut self, frame: FrameId, count: u64)
        ensures ended { PutsItem frame.0
            (option_map (ended_item count) (item_of self.old frame.0))
            self.old.items self.new.items }
        ensures last_asked { self.new.last_asked ≡ self.old.last_asked }
    {
        end_item(&mut self.items, frame, count);
        pop_stale(&mut self.snapshots, &self.items);
    }

    /// Records that the page was installed while the frame waited for it. Returns whether the frame pins it only
    /// from now on.
    pub fn install(&mut self, frame: FrameId, page: u32) -> bool
        ensures installed { PutsItem frame.0
            (option_map (installed_item page) (item_of self.old frame.0))
            self.old.items self.new.items }
        ensures pins { (p : ℕ) → pin_count self.new.items p
            ≡ pin_count self.old.items p + (if result && (page == p) then 1 else 0) }
        ensures last_asked { self.new.last_asked ≡ self.old.last_asked }
    {
        install_item(&mut self.items, frame, page)
    }
}
