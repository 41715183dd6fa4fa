ghost use Rattle.std.specs.Prelude.{◌≡◌, List, ℕ};

use geom_core::Nums;
use std::marker::Model;

/// The pages that each page depends on directly (its dependencies), by page. A contract sees the list of
/// lists.
#[derive(Debug, Drop)]
pub struct Uppers {
    items: Vec<Nums>,
}

impl Model for Uppers {
    ghost Value = { List (List ℕ) };

    ghost view = { λ uppers. uppers.items.items };
}

impl Uppers {
    /// Wraps the uppers of page 0, of page 1 and so on. Takes no memory.
    pub fn of(items: Vec<Nums>) -> Uppers
        ensures { result ≡ items.items }
    {
        Uppers { items }
    }

    /// Returns the uppers of each page, by page.
    pub fn as_slice(&self) -> &[Nums]
        ensures { result.now ≡ self.now }
    {
        self.items.as_slice()
    }
}

/// What a pool manages: its pages, which of them are always resident, its slots, and which page depends on
/// which. The clause of `is_in_bounds` states the ranges.
#[derive(Debug, Drop)]
pub struct Layout {
    /// The number of pages, 1 to `MAX_PAGES`.
    pub pages: u32,
    /// The number of root pages, 1 to `pages`. The pages below this number are always resident.
    pub roots: u32,
    /// The number of slots, `roots` to `MAX_PAGES`. At most this many pages are resident or loading
    /// at a time.
    pub slots: u32,
    /// The pages that each page depends on directly, by page: ascending, each below the page. A page is
    /// loaded only while its uppers are resident.
    pub uppers: Uppers,
}

impl Layout {
    ghost use Rattle.journal.specs.Layout.{uppers_of, is_upper};

    /// Returns the uppers of a page; none if there is no such page.
    pub fn uppers_of(&self, page: u32) -> &[u32]
        ensures { result.now ≡ uppers_of self.now page }
    {
        match self.uppers.as_slice().get(page as usize) {
            Some(uppers) => uppers.as_slice(),
            None => &[],
        }
    }

    /// Whether `upper` is one of the page's uppers.
    pub fn is_upper(&self, upper: u32, page: u32) -> bool
        ensures { result ≡ is_upper self.now upper page }
    {
        self.uppers_of(page).contains(&upper)
    }
}
