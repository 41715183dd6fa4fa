ghost use Rattle.std.specs.Prelude.{◌≡◌, ◌==◌, ◌+◌, ◌&&◌, [], ℕ, IfOk, true, length, if◌then◌else◌};
ghost use Rattle.journal.specs.Layout.{ascends};
ghost use Rattle.pool_rules.specs.Numbers.{is_among};
ghost use Rattle.pool_tables.specs.Changes.{times};
ghost use Rattle.pool_tables.specs.PinLists.{flagged, installed_pins, narrowed_pins, no_pins, pinned_pages, settled_pins, with_flag};

use crate::ascending::{is_among_ascending, place_among};
use geom_core::Memory;
use std::alloc::Global;
use std::marker::Model;

/// The pages that a frame pins explicitly, and not by a snapshot. Each missing page of its last Settle has
/// room from then on, so that an Install takes no memory. A contract sees the three lists.
#[derive(Debug, Drop)]
pub struct ExplicitPins {
    /// The pages of the frame's last Settle or Narrow, ascending; none after a Pin.
    named: Vec<u32>,
    /// The missing pages of its last Settle, ascending.
    missing: Vec<u32>,
    /// For each missing page: whether the frame pins it, since it was installed while the frame waited for it.
    flags: Vec<bool>,
}

impl Model for ExplicitPins {
    ghost use Rattle.pool_tables.specs.PinLists.{PinLists};

    ghost Value = { PinLists };

    ghost use Rattle.std.specs.Prelude.{◌≡◌, true, length};
    ghost use Rattle.journal.specs.Layout.{ascends};

    ghost view = { λ pins. record {
      named = pins.named.items;
      missing = pins.missing.items;
      flags = pins.flags.items;
    } };

    ghost invariant = { λ pins. (ascends pins.named.items ≡ true)
        × (ascends pins.missing.items ≡ true)
        × (length pins.flags.items ≡ length pins.missing.items) };
}

/// Whether the page is one of the missing pages and has its flag.
fn is_flagged(missing: &[u32], flags: &[bool], page: u32) -> bool
    requires ascending { ascends missing.now ≡ true }
    requires flag_a_page { length flags.now ≡ length missing.now }
    ensures { result ≡ is_among (flagged missing.now flags.now) page }
{
    match place_among(missing, page) {
        Some(place) => flags[place],
        None => false,
    }
}

/// Sets the page's flag if it is one of the missing pages. Returns whether the flag was not set before.
fn flag(missing: &[u32], flags: &mut [bool], page: u32) -> bool
    requires ascending { ascends missing.now ≡ true }
    requires flag_a_page { length flags.old ≡ length missing.now }
    ensures flags { flags.new ≡ with_flag page missing.now flags.old }
    ensures pins { (p : ℕ) → times (flagged missing.now flags.new) p
        ≡ times (flagged missing.now flags.old) p + (if result && (page == p) then 1 else 0) }
{
    match place_among(missing, page) {
        Some(place) => {
            let was_flagged = flags[place];
            flags[place] = true;
            !was_flagged
        }
        None => false,
    }
}

impl ExplicitPins {
    /// Returns the pins of a frame that has no Settle. Takes no memory.
    pub fn none(alloc: Global) -> ExplicitPins
        ensures { result ≡ no_pins }
    {
        ExplicitPins {
            named: Vec::new(alloc),
            missing: Vec::new(alloc),
            flags: Vec::new(alloc),
        }
    }

    /// Returns the pins after a Settle with these pages and these missing pages.
    pub fn settled(alloc: Global, pages: &[u32], missing: &[u32]) -> Result<ExplicitPins, Memory>
        requires pages_ascend { ascends pages.now ≡ true }
        requires missing_ascend { ascends missing.now ≡ true }
        ensures { IfOk result (λ pins. pins ≡ settled_pins pages.now missing.now) }
    {
        Ok(ExplicitPins {
            named: Vec::from_slice(alloc, pages)?,
            missing: Vec::from_slice(alloc, missing)?,
            flags: vec![in alloc; false; missing.len()]?,
        })
    }

    /// Returns the pages of the last Settle or Narrow, ascending; none after a Pin.
    pub fn named(&self) -> &[u32]
        ensures { result.now ≡ self.now.named }
    {
        self.named.as_slice()
    }

    /// Returns the missing pages of the last Settle, ascending.
    pub fn missing(&self) -> &[u32]
        ensures { result.now ≡ self.now.missing }
    {
        self.missing.as_slice()
    }

    /// Returns for each missing page whether it is pinned.
    pub fn flags(&self) -> &[bool]
        ensures flags { result.now ≡ self.now.flags }
        ensures flag_a_page { length result.now ≡ length self.now.missing }
    {
        self.flags.as_slice()
    }

    /// Whether the page is pinned.
    pub fn contains(&self, page: u32) -> bool
        ensures { result ≡ is_among (pinned_pages self.now) page }
    {
        is_among_ascending(&self.named, page) || is_flagged(&self.missing, &self.flags, page)
    }

    /// Pins these pages, which ascend, and no others. The missing pages keep their room.
    pub fn narrow(&mut self, named: Vec<u32>)
        requires ascending { ascends named.items ≡ true }
        ensures { self.new ≡ narrowed_pins named.items self.old }
    {
        self.named = named;
        self.flags.fill(false);
    }

    /// Pins no page. The missing pages keep their room.
    pub fn unpin_all(&mut self)
        ensures { self.new ≡ narrowed_pins [] self.old }
    {
        self.named.clear();
        self.flags.fill(false);
    }

    /// Pins no page, and frees the lists. Takes no memory.
    pub fn free(&mut self)
        ensures { self.new ≡ no_pins }
    {
        let alloc = *self.named.allocator();
        self.named = Vec::new(alloc);
        self.missing = Vec::new(alloc);
        self.flags = Vec::new(alloc);
    }

    /// Pins the page if it is one of the missing pages. Returns whether the page was not pinned as one of them
    /// before.
    pub fn install(&mut self, page: u32) -> bool
        ensures installed { self.new ≡ installed_pins page self.old }
        ensures pins { (p : ℕ) → times (pinned_pages self.new) p
            ≡ times (pinned_pages self.old) p + (if result && (page == p) then 1 else 0) }
    {
        flag(&self.missing, &mut self.flags, page)
    }
}
