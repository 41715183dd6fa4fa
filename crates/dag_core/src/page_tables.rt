ghost use Rattle.std.specs.Prelude.{◌≡◌, ◌&&◌, ◌==◌, ◌<◌, ℕ, IfOk, length, nat_lt};
ghost use Rattle.std.specs.Option.{ForSome};
ghost use Rattle.dag_core.specs.Members.{group_at, is_maker};
ghost use Rattle.dag_core.specs.Pages.{is_maker_on};
ghost use Rattle.dag_core.specs.Ranges.{IsInRange};
ghost use Rattle.dag_core.specs.Rules.{KeepsRulesBelow};
ghost use Rattle.dag_core.specs.Internal.Tables.{homes_of, later_uppers_of, makers_of, page_tris_of, terminal_pages_of};

use crate::groups::Group;
use crate::heads::Heads;
use crate::marks::{add_at, mark, no_marks};
use geom_core::Memory;
use std::alloc::Global;

impl Heads {
    /// Returns for each group whether it made a cluster.
    pub(crate) fn makers(&self, alloc: Global) -> Result<Vec<bool>, Memory>
        requires range { IsInRange self.now }
        ensures makers { IfOk result (λ makers. makers.items ≡ makers_of self.now) }
    {
        let mut makers = no_marks(alloc, self.groups.as_slice().len())?;
        for c in 0..self.clusters.as_slice().len() {
            mark(&mut makers, self.cluster(c).made);
        }
        Ok(makers)
    }

    /// Returns the number of triangles on each page.
    pub(crate) fn page_tris(&self, alloc: Global, homes: &[u32]) -> Result<Vec<u32>, Memory>
        requires range { IsInRange self.now }
        requires members { KeepsRulesBelow 2 self.now }
        requires homes { homes.now ≡ homes_of self.now }
        ensures tris { IfOk result (λ tris. tris.items ≡ page_tris_of self.now) }
    {
        let mut tris = vec![in alloc; 0u32; self.pages as usize]?;
        for c in 0..homes.len() {
            let page = self.group(homes[c] as usize).page;
            add_at(&mut tris, page, self.cluster(c).tris);
        }
        Ok(tris)
    }

    /// Returns for each page whether it has a terminal group.
    pub(crate) fn terminal_pages(&self, alloc: Global) -> Result<Vec<bool>, Memory>
        requires range { IsInRange self.now }
        ensures pages { IfOk result (λ pages. pages.items ≡ terminal_pages_of self.now) }
    {
        let mut pages = no_marks(alloc, self.pages as usize)?;
        for g in 0..self.groups.as_slice().len() {
            mark(&mut pages, terminal_page(self.group(g)));
        }
        Ok(pages)
    }

    /// Returns for each page whether one of its uppers has a greater number.
    pub(crate) fn later_uppers(&self, alloc: Global, homes: &[u32]) -> Result<Vec<bool>, Memory>
        requires range { IsInRange self.now }
        requires members { KeepsRulesBelow 2 self.now }
        requires homes { homes.now ≡ homes_of self.now }
        ensures pages { IfOk result (λ pages. pages.items ≡ later_uppers_of self.now) }
    {
        let mut pages = no_marks(alloc, self.pages as usize)?;
        for c in 0..homes.len() {
            mark(&mut pages, self.page_before(self.cluster(c).made, homes[c]));
        }
        Ok(pages)
    }

    /// Returns the page of a cluster's maker, if the home's page has a greater number.
    fn page_before(&self, made: Option<u32>, home: u32) -> Option<u32>
        requires range { IsInRange self.now }
        requires home { home < length self.now.groups }
        requires maker { ForSome made (λ m. m < length self.now.groups) }
        ensures page { (p : ℕ) → is_maker p result ≡
            (is_maker_on self.now p made && nat_lt p (group_at self.now home).page) }
        ensures page_range { ForSome result (λ p. p < self.now.pages) }
    {
        let page = self.group(made? as usize).page;
        if page < self.group(home as usize).page {
            Some(page)
        } else {
            None
        }
    }
}

/// Returns the page of a terminal group.
fn terminal_page(group: Group) -> Option<u32>
    ensures page { (p : ℕ) → is_maker p result ≡ (group.terminal && group.page == p) }
    ensures same { ForSome result (λ p. p ≡ group.page) }
{
    if group.terminal {
        Some(group.page)
    } else {
        None
    }
}
