ghost use Rattle.std.specs.Prelude.{◌≡◌, ◌<◌, ◌&&◌, ◌||◌, ◌==◌, ℕ, All, IfOk, length, nat_lt};
ghost use Rattle.std.specs.Option.{ForSome};
ghost use Rattle.dag_core.specs.Coarse.{is_coarse_group};
ghost use Rattle.dag_core.specs.Members.{is_maker};
ghost use Rattle.dag_core.specs.PageSets.{IsLeastClosed, IsNeed};
ghost use Rattle.dag_core.specs.Ranges.{IsInRange};
ghost use Rattle.dag_core.specs.Rules.{Checked};
ghost use Rattle.dag_core.specs.Internal.Marks.{IsClosureOf, before_makes_of, is_made_onto, is_marked, last_makes_of};
ghost use Rattle.dag_core.specs.Internal.Tables.{homes_of};

use crate::chains::MakerChains;
use crate::detail::coarse;
use crate::groups::Group;
use crate::heads::Heads;
use crate::marks::{mark, marked, no_marks};
use geom_core::{Lens, Memory, Nums};
use std::alloc::Global;

impl Heads {
    /// Returns the least closed set with these pages, ascending: it has the root pages and, with each page, the
    /// page's uppers. Time and memory are in proportion to the numbers of groups, clusters and pages.
    pub fn close(&self, alloc: Global, pages: &Nums) -> Result<Nums, Memory>
        requires range { IsInRange self.now }
        requires checked { Checked self.now }
        requires page_range { All (λ p. p < self.now.pages) pages.now }
        ensures closed { IfOk result (λ closed. IsLeastClosed self.now pages.now closed) }
    {
        let mut marks = self.root_marks(alloc)?;
        for page in pages.as_slice() {
            marks[*page as usize] = true;
        }
        let closed = self.closed_from(alloc, marks)?;
        Ok(closed)
    }

    /// Returns the pages that the lens needs, ascending: the least closed set with the pages of all coarse groups.
    /// Time and memory are in proportion to the numbers of groups, clusters and pages.
    pub fn need(&self, alloc: Global, lens: &Lens) -> Result<Nums, Memory>
        requires range { IsInRange self.now }
        requires checked { Checked self.now }
        ensures need { IfOk result (λ need. IsNeed self.now lens.now need) }
    {
        let mut marks = self.root_marks(alloc)?;
        for g in 0..self.groups.as_slice().len() {
            mark(&mut marks, coarse_page(self.group(g), lens));
        }
        let need = self.closed_from(alloc, marks)?;
        Ok(need)
    }

    /// Returns a mark for each page, set for the root pages.
    fn root_marks(&self, alloc: Global) -> Result<Vec<bool>, Memory>
        requires range { IsInRange self.now }
        ensures count { IfOk result (λ marks. length marks.items ≡ self.now.pages) }
        ensures marks { IfOk result (λ marks. (p : ℕ) →
            is_marked marks.items p ≡ nat_lt p self.now.roots) }
    {
        let mut marks = no_marks(alloc, self.pages as usize)?;
        for p in 0..self.roots as usize {
            marks[p] = true;
        }
        Ok(marks)
    }

    /// Returns the marked pages and all that they depend on.
    ///
    /// Pages are judged in falling order. No upper of a page is greater than the page, so nothing is added to the
    /// pages that were judged.
    fn closed_from(&self, alloc: Global, marks: Vec<bool>) -> Result<Nums, Memory>
        requires range { IsInRange self.now }
        requires checked { Checked self.now }
        requires count { length marks.items ≡ self.now.pages }
        ensures closure { IfOk result (λ pages. IsClosureOf self.now marks.items pages) }
    {
        let homes = self.homes(alloc)?;
        let chains = self.maker_chains(alloc)?;
        let mut closed = marks;
        let count = closed.len();
        for judged in 0..count {
            let p = count - 1 - judged;
            if closed[p] {
                self.mark_uppers(&mut closed, &homes, &chains, p);
            }
        }
        let pages = marked(alloc, &closed)?;
        Ok(pages)
    }

    /// Sets the marks of the pages that have a cluster which a group of page p made.
    fn mark_uppers(&self, marks: &mut Vec<bool>, homes: &[u32], chains: &MakerChains, p: usize)
        requires range { IsInRange self.now }
        requires checked { Checked self.now }
        requires count { length marks.old.items ≡ self.now.pages }
        requires homes { homes.now ≡ homes_of self.now }
        requires last { chains.now.last.items ≡ last_makes_of self.now }
        requires before { chains.now.before.items ≡ before_makes_of self.now }
        requires page { p < self.now.pages }
        ensures count { length marks.new.items ≡ length marks.old.items }
        ensures marks { (q : ℕ) → is_marked marks.new.items q ≡
            (is_marked marks.old.items q || is_made_onto self.now p q) }
    {
        let mut next = chains.last[p];
        while let Some(c) = next {
            let page = self.group(homes[c as usize] as usize).page;
            mark(marks, Some(page));
            next = chains.before[c as usize];
        }
    }
}

/// Returns the page of a coarse group.
fn coarse_page(group: Group, lens: &Lens) -> Option<u32>
    ensures page { (p : ℕ) → is_maker p result ≡ (is_coarse_group lens.now group && group.page == p) }
    ensures same { ForSome result (λ p. p ≡ group.page) }
{
    if coarse(&group, lens) {
        Some(group.page)
    } else {
        None
    }
}
