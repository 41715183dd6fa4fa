ghost use Rattle.std.specs.Prelude.{◌≡◌, ◌<◌, ◌&&◌, ◌==◌, ℕ, IfOk, length, not};
ghost use Rattle.std.specs.Option.{ForSome};
ghost use Rattle.dag_core.specs.Members.{group_at, is_maker};
ghost use Rattle.dag_core.specs.Pages.{is_maker_on, uppers_of};
ghost use Rattle.dag_core.specs.Ranges.{IsInRange};
ghost use Rattle.dag_core.specs.Rules.{Checked};

use crate::heads::Heads;
use crate::marks::{mark, marked, no_marks};
use geom_core::{Memory, Nums};
use std::alloc::Global;

impl Heads {
    /// Returns the uppers of a page, ascending: the other pages that have a cluster which a group of the page made.
    /// Time and memory are in proportion to the numbers of clusters and pages.
    pub fn uppers(&self, alloc: Global, p: u32) -> Result<Nums, Memory>
        requires range { IsInRange self.now }
        requires checked { Checked self.now }
        requires page { p < self.now.pages }
        ensures uppers { IfOk result (λ uppers. uppers ≡ uppers_of self.now p) }
    {
        let homes = self.homes(alloc)?;
        let mut marks = no_marks(alloc, self.pages as usize)?;
        for c in 0..homes.len() {
            mark(&mut marks, self.upper_by(p, self.cluster(c).made, homes[c]));
        }
        let uppers = marked(alloc, &marks)?;
        Ok(uppers)
    }

    /// Returns the page of a home, if it is another page than p and the maker is a group of p.
    fn upper_by(&self, p: u32, made: Option<u32>, home: u32) -> Option<u32>
        requires range { IsInRange self.now }
        requires home { home < length self.now.groups }
        requires maker { ForSome made (λ m. m < length self.now.groups) }
        ensures page { (q : ℕ) → is_maker q result ≡
            (not (q == p) && (is_maker_on self.now p made && (group_at self.now home).page == q)) }
        ensures page_range { ForSome result (λ q. q < self.now.pages) }
    {
        let page = self.group(home as usize).page;
        if self.group(made? as usize).page == p && page != p {
            Some(page)
        } else {
            None
        }
    }
}
