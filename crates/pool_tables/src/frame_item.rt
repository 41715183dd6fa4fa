ghost use Rattle.std.specs.Prelude.{◌≡◌, ◌==◌, ◌+◌, ◌&&◌, ℕ, Some, None, true, if◌then◌else◌};
ghost use Rattle.journal.specs.Layout.{ascends};
ghost use Rattle.pool_tables.specs.Changes.{times};
ghost use Rattle.pool_tables.specs.PinLists.{pinned_pages};

use crate::explicit_pins::ExplicitPins;
use crate::page_record::MakerId;

/// The number of a frame.
#[derive(Clone, Copy, Debug, PartialEq, Eq)]
pub struct FrameId(pub u32);

/// What is kept of a frame that began. A count of entries includes the entry that it tells of.
#[derive(Debug, Drop)]
pub struct FrameItem {
    /// The maker that pinned the frame last.
    pub owner: MakerId,
    /// The count of entries at its last Settle or Ask; 0 if it has none.
    pub asked_at: u64,
    /// The count of entries at its Unpin; None while the frame is live.
    pub ended_at: Option<u64>,
    /// The count of entries at its last Pin, if no Settle or Narrow came after it: the frame pins all pages
    /// that were installed up to then.
    pub snapshot: Option<u64>,
    /// The pages that it pins explicitly.
    pub pins: ExplicitPins,
}

impl FrameItem {
    ghost use Rattle.pool_tables.specs.FrameItems.{asked_item, ended_item, installed_item, narrowed_item, pinned_item, settled_item};

    /// Records a Pin of the frame that is not its first.
    pub fn pin_again(&mut self, by: MakerId, count: u64)
        ensures { self.new ≡ pinned_item by count (Some self.old) }
    {
        self.owner = by;
        self.snapshot = Some(count);
        self.pins.unpin_all();
    }

    /// Records a Settle of the frame that leaves it these pins.
    pub fn settle(&mut self, by: MakerId, count: u64, pins: ExplicitPins)
        ensures { self.new ≡ settled_item by count pins self.old }
    {
        self.owner = by;
        self.asked_at = count;
        self.snapshot = None;
        self.pins = pins;
    }

    /// Records an Ask of the frame.
    pub fn ask(&mut self, count: u64)
        ensures { self.new ≡ asked_item count self.old }
    {
        self.asked_at = count;
    }

    /// Records a Narrow of the frame to these pages.
    pub fn narrow(&mut self, by: MakerId, pages: Vec<u32>)
        requires ascending { ascends pages.items ≡ true }
        ensures { self.new ≡ narrowed_item by pages.items self.old }
    {
        self.owner = by;
        self.snapshot = None;
        self.pins.narrow(pages);
    }

    /// Records the Unpin of the frame, and frees its lists.
    pub fn end(&mut self, count: u64)
        ensures { self.new ≡ ended_item count self.old }
    {
        self.ended_at = Some(count);
        self.snapshot = None;
        self.pins.free();
    }

    /// Records that the page was installed while the frame waited for it. Returns whether the frame pins it only
    /// from now on.
    pub fn install(&mut self, page: u32) -> bool
        ensures installed { self.new ≡ installed_item page self.old }
        ensures pins { (p : ℕ) → times (pinned_pages self.new.pins) p
            ≡ times (pinned_pages self.old.pins) p + (if result && (page == p) then 1 else 0) }
    {
        self.pins.install(page)
    }
}
