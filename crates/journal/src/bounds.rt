ghost use Rattle.std.specs.Prelude.{◌≡◌, ◌+◌, ◌<◌, ◌≤◌, ◌^◌, ◌↔◌, ℕ, IsTrue, length, [], slice_index_or};
ghost use Rattle.geom_core.specs.declared.limits.TheConstants.{MAX_PAGES};
ghost use Rattle.journal.specs.Layout.{InBounds, CountsFit, UppersFit};

use crate::Layout;
use crate::pages::{all_below, ascends};
use geom_core::Nums;
use geom_core::limits::MAX_PAGES;

/// Whether the numbers of pages, root pages and slots are within their bounds.
fn counts_fit(layout: &Layout) -> bool
    ensures { IsTrue result ↔ CountsFit layout.now }
{
    let pages = layout.pages;
    let roots = layout.roots;
    let slots = layout.slots;
    1 <= roots && roots <= pages && pages <= MAX_PAGES && roots <= slots && slots <= MAX_PAGES
}

/// Whether the uppers of a page ascend and are below the page.
fn is_fitting(uppers: &[u32], page: u32) -> bool
    ensures { IsTrue result ↔ UppersFit page uppers.now }
{
    ascends(uppers) && all_below(page, uppers)
}

/// Whether the uppers of each page ascend and are below that page.
fn all_fit(all: &[Nums]) -> bool
    requires page_limit { length all.now ≤ MAX_PAGES }
    ensures { IsTrue result
        ↔ ((page : ℕ) → page < length all.now → UppersFit page (slice_index_or all.now page [])) }
{
    for (page, uppers) in all.iter().enumerate() {
        if !is_fitting(uppers.as_slice(), page as u32) {
            return false;
        }
    }
    true
}

impl Layout {
    /// Whether the layout is within its bounds: 1 to `MAX_PAGES` pages with a list of uppers each, 1 to
    /// `pages` root pages, `roots` to `MAX_PAGES` slots, and uppers that ascend and are below their page.
    pub fn is_in_bounds(&self) -> bool
        ensures { IsTrue result ↔ InBounds self.now }
    {
        let all = self.uppers.as_slice();
        counts_fit(self) && all.len() == self.pages as usize && all_fit(all)
    }
}
