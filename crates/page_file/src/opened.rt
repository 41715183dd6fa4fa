ghost use Rattle.std.specs.Prelude.{◌≡◌, List};
ghost use Rattle.page_codec.specs.declared.pages.Page.{Page};

use page_codec::{Directory, Page};
use std::marker::Model;

/// A list of pages, by their numbers. Contracts see the list itself.
#[derive(Debug, Drop)]
pub struct Pages {
    items: Vec<Page>,
}

impl Model for Pages {
    ghost Value = { List Page };

    ghost view = { λ pages. pages.items.items };
}

impl Pages {
    /// Returns the list of the vector's pages, without allocating.
    pub fn of(items: Vec<Page>) -> Pages
        ensures { result ≡ items.items }
    {
        Pages { items }
    }

    /// Returns the vector of the list's pages, without allocating.
    pub fn into_vec(self) -> Vec<Page>
        ensures { result.items ≡ self }
    {
        self.items
    }

    /// The pages, in order.
    pub fn as_slice(&self) -> &[Page]
        ensures { result.now ≡ self.now }
    {
        self.items.as_slice()
    }
}

/// A page file that was opened: what is always in memory of it.
#[derive(Debug, Drop)]
pub struct Opened {
    /// The directory.
    pub directory: Directory,
    /// The root pages, ascending from page 0.
    pub roots: Pages,
}
