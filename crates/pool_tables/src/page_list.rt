ghost use Rattle.std.specs.Prelude.{◌≡◌, ◌==◌, ◌++◌, ◌∷◌, ◌<◌, [], true, false, IfOk, None};
ghost use Rattle.std.specs.Option.{option_to_list};
ghost use Rattle.pool_rules.specs.Numbers.{is_among};
ghost use Rattle.pool_tables.specs.ListedPages.{no_pages, without};

use geom_core::Memory;
use std::alloc::Global;
use std::marker::Model;

/// A list of pages, none of them twice: doubly linked through two arrays by page, so that no change but
/// `new` takes memory. A contract sees the pages in their order.
#[derive(Debug, Drop)]
pub struct PageList {
    /// The number of pages that may be in the list; in the arrays the place of both ends of the list.
    end: u32,
    /// By page: the page after it; `end` after the last page. At `end`: the first page.
    next: Vec<u32>,
    /// By page: the page before it; `end` before the first page. At `end`: the last page.
    previous: Vec<u32>,
}

impl Model for PageList {
    ghost use Rattle.pool_tables.specs.ListedPages.{ListedPages};

    ghost Value = { ListedPages };

    ghost use Rattle.pool_tables.specs.Internal.Links.{pages_after, IsRing};

    ghost view = { λ list. record {
      capacity = list.end;
      pages = pages_after list.next.items list.end list.end list.end;
    } };

    ghost invariant = { λ list. IsRing list.next.items list.previous.items list.end
        (pages_after list.next.items list.end list.end list.end) };
}

impl PageList {
    /// Returns a list without pages; those below `capacity` may be put into it.
    pub fn new(alloc: Global, capacity: u32) -> Result<PageList, Memory>
        ensures { IfOk result (λ list. list ≡ no_pages capacity) }
    {
        let places = capacity as usize + 1;
        Ok(PageList {
            end: capacity,
            next: vec![in alloc; capacity; places]?,
            previous: vec![in alloc; capacity; places]?,
        })
    }

    /// Returns the number of pages that may be in the list: those below it.
    pub fn capacity(&self) -> u32
        ensures { result ≡ self.now.capacity }
    {
        self.end
    }

    /// Appends the page, which is not in the list.
    pub fn push(&mut self, page: u32)
        requires page_range { page < self.old.capacity }
        requires absent { is_among self.old.pages page ≡ false }
        ensures { self.new ≡ record self.old { pages = self.old.pages ++ page ∷ [] } }
    {
        let last = self.previous[self.end as usize];
        self.next[last as usize] = page;
        self.previous[page as usize] = last;
        self.next[page as usize] = self.end;
        self.previous[self.end as usize] = page;
    }

    /// Removes the page, which is in the list.
    pub fn remove(&mut self, page: u32)
        requires present { is_among self.old.pages page ≡ true }
        ensures left { self.new ≡ record self.old { pages = without page self.old.pages } }
        ensures page_range { page < self.old.capacity }
    {
        let before = self.previous[page as usize];
        let after = self.next[page as usize];
        self.next[before as usize] = after;
        self.previous[after as usize] = before;
    }

    /// Moves the page, which is in the list, to the list's end.
    pub fn move_to_end(&mut self, page: u32)
        requires present { is_among self.old.pages page ≡ true }
        ensures { self.new ≡ record self.old { pages = without page self.old.pages ++ page ∷ [] } }
    {
        self.remove(page);
        self.push(page);
    }

    /// Returns the pages in order, to be read one by one.
    pub fn iter(&self) -> PagesLeft<'_>
        ensures { result ≡ self.now.pages }
    {
        PagesLeft {
            next: &self.next,
            end: self.end,
            from: self.end,
        }
    }
}

/// The pages of a list that were not read yet. A contract sees the list of them.
#[derive(Drop)]
pub struct PagesLeft<'a> {
    /// By page: the page after it.
    next: &'a [u32],
    /// Where the list ends.
    end: u32,
    /// The page that was read last; `end` before the first one.
    from: u32,
}

impl<'a> Model for PagesLeft<'a> {
    ghost use Rattle.std.specs.Prelude.{List, ℕ};

    ghost Value = { List ℕ };

    ghost use Rattle.pool_tables.specs.Internal.Links.{pages_after, IsPath};

    ghost view = { λ left. pages_after left.next.now left.end left.end left.from };

    ghost invariant = { λ left. IsPath left.next.now left.end left.from
        (pages_after left.next.now left.end left.end left.from) };
}

impl<'a> PagesLeft<'a> {
    /// Takes the first of the pages that are left.
    pub fn next(&mut self) -> Option<u32>
        ensures first { self.old ≡ option_to_list result ++ self.new }
        ensures end { result ≡ None → self.old ≡ [] }
    {
        let page = self.next[self.from as usize];
        if page == self.end {
            return None;
        }
        self.from = page;
        Some(page)
    }
}
