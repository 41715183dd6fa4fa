ghost use Rattle.std.specs.Prelude.{◌≡◌, ◌<◌, ℕ, IfOk, None, Option, Some, length, slice_index_or, if◌then◌else◌};
ghost use Rattle.std.specs.Option.{ForSome};
ghost use Rattle.dag_core.specs.Members.{cluster_at, is_maker};
ghost use Rattle.dag_core.specs.Ranges.{IsInRange};
ghost use Rattle.dag_core.specs.Internal.Marks.{before_makes_of, entry_of, last_makes_of, maker_page};

use crate::heads::Heads;
use geom_core::Memory;
use std::alloc::Global;

/// The clusters in falling order of their maker's page, as a chain for each page.
#[derive(Debug, Drop)]
pub(crate) struct MakerChains {
    /// By page: the last cluster that a group of the page made.
    pub(crate) last: Vec<Option<u32>>,
    /// By cluster: the last one before it that a group of the same page made.
    pub(crate) before: Vec<Option<u32>>,
}

impl Heads {
    /// Returns the chains of the clusters by the pages of their makers, in one pass over the clusters.
    pub(crate) fn maker_chains(&self, alloc: Global) -> Result<MakerChains, Memory>
        requires range { IsInRange self.now }
        ensures last { IfOk result (λ chains. chains.last.items ≡ last_makes_of self.now) }
        ensures before { IfOk result (λ chains. chains.before.items ≡ before_makes_of self.now) }
    {
        let count = self.clusters.as_slice().len();
        let mut last = vec![in alloc; None; self.pages as usize]?;
        let mut before = Vec::with_capacity(alloc, count)?;
        for c in 0..count {
            before.push(link(&mut last, self.maker_page(c), c as u32))?;
        }
        Ok(MakerChains { last, before })
    }

    /// Returns the page of a cluster's maker.
    fn maker_page(&self, c: usize) -> Option<u32>
        requires range { IsInRange self.now }
        requires cluster { c < length self.now.clusters }
        ensures page { result ≡ maker_page self.now (cluster_at self.now c).made }
        ensures page_range { ForSome result (λ p. p < self.now.pages) }
    {
        let maker = self.cluster(c).made?;
        Some(self.group(maker as usize).page)
    }
}

/// Makes a cluster the last one of a page, and returns the one that was.
fn link(last: &mut Vec<Option<u32>>, page: Option<u32>, c: u32) -> Option<u32>
    requires page { ForSome page (λ p. p < length last.old.items) }
    ensures count { length last.new.items ≡ length last.old.items }
    ensures before { result ≡ entry_of last.old.items page }
    ensures last { (p : ℕ) → slice_index_or last.new.items p None ≡
        (if is_maker p page then Some c else slice_index_or last.old.items p None) }
{
    let page = page? as usize;
    let before = last[page];
    last[page] = Some(c);
    before
}
