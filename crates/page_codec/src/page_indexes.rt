ghost use Rattle.std.specs.Prelude.{◌≡◌, ◌≤◌, ◌<◌, ◌+◌, ◌^◌, ℕ, All, IfOk, length, slice_index, slice_index_or};
ghost use Rattle.dag_core.specs.Members.{no_group};
ghost use Rattle.dag_core.specs.Ranges.{IsInRange};
ghost use Rattle.page_codec.specs.PageLinks.{IsIndexOf, next_on};

use dag_core::{Group, Heads};
use geom_core::Memory;
use std::alloc::Global;
use std::marker::Model;

/// The groups on each page of some heads: the first one of each page, and the next one after each group. Its memory
/// is four bytes a page and a group.
#[derive(Debug, Drop)]
pub struct PageIndex {
    /// The first group on each page, by the page's number; the number of groups for a page without a group.
    firsts: Vec<u32>,
    /// The next group on a group's page, by the group's number; the number of groups if there is none.
    nexts: Vec<u32>,
}

impl Model for PageIndex {
    ghost use Rattle.page_codec.specs.PageLinks.{PageLinks};

    ghost Value = { PageLinks };

    ghost view = { λ index. record { firsts = index.firsts.items; nexts = index.nexts.items } };
}

impl PageIndex {
    /// Returns the index of the heads' pages, in time in proportion to the groups and the pages.
    pub fn of(alloc: Global, heads: &Heads) -> Result<PageIndex, Memory>
        requires range { IsInRange heads.now }
        ensures index { IfOk result (IsIndexOf heads.now) }
    {
        let groups = heads.groups.as_slice();
        let mut firsts = vec![in alloc; groups.len() as u32; heads.pages as usize]?;
        let mut nexts = vec![in alloc; groups.len() as u32; groups.len()]?;
        link(groups, &mut firsts, &mut nexts);
        Ok(PageIndex { firsts, nexts })
    }

    /// Returns the first group on the page.
    pub(crate) fn first(&self, page: u32) -> u32
        requires page_range { page < length self.now.firsts }
        ensures group { result ≡ slice_index self.now.firsts page }
    {
        self.firsts[page as usize]
    }

    /// Returns the next group after this one on its page.
    pub(crate) fn next(&self, group: u32) -> u32
        requires group_range { group < length self.now.nexts }
        ensures group { result ≡ slice_index self.now.nexts group }
    {
        self.nexts[group as usize]
    }
}

/// Links each group to the next one on its page, the last group first. The tables begin with the number of groups
/// everywhere.
fn link(groups: &[Group], firsts: &mut [u32], nexts: &mut [u32])
    requires group_limit { length groups.now < 2 ^ 32 }
    requires pages { All (λ group. group.page < length firsts.old) groups.now }
    requires nexts { length nexts.old ≡ length groups.now }
    requires none { All (λ first. first ≡ length groups.now) firsts.old }
    ensures first { (p : ℕ) → p < length firsts.new → slice_index firsts.new p ≡ next_on groups.now p 0 }
    ensures next { (g : ℕ) → g < length groups.now → slice_index nexts.new g ≡
        next_on groups.now (slice_index_or groups.now g no_group).page (g + 1) }
{
    let mut g = groups.len();
    'groups: while g > 0 {
        g -= 1;
        let page = groups[g].page as usize;
        nexts[g] = firsts[page];
        firsts[page] = g as u32;
    }
}
