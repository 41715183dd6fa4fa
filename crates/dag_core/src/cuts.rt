ghost use Rattle.std.specs.Prelude.{◌≡◌, ◌<◌, ◌&&◌, IfOk, length, map, not};
ghost use Rattle.std.specs.List.{range_with_len};
ghost use Rattle.std.specs.List.Sorted.{IsStrictlyIncreasing};
ghost use Rattle.std.specs.Option.{ForSome};
ghost use Rattle.dag_core.specs.Cuts.{cut_of, is_open};
ghost use Rattle.dag_core.specs.Internal.Marks.{is_marked, is_marked_maker};
ghost use Rattle.dag_core.specs.PageSets.{has_page};
ghost use Rattle.dag_core.specs.Ranges.{IsInRange};
ghost use Rattle.dag_core.specs.Rules.{Checked};

use crate::detail::coarse;
use crate::heads::Heads;
use geom_core::{Lens, Memory, Nums};
use std::alloc::Global;

impl Heads {
    /// Whether a group is open: its page is resident, and the group is terminal or coarse. Does not allocate.
    #[tactic(auto, unfolding(crate::specs::Cuts::is_open))]
    pub fn is_open(&self, g: u32, lens: &Lens, resident: &Nums) -> bool
        requires group { g < length self.now.groups }
        requires ascending { IsStrictlyIncreasing resident.now }
        ensures group { result ≡ is_open self.now lens.now resident.now g }
    {
        let group = self.group(g as usize);
        let is_detailed = group.terminal || coarse(&group, lens);
        has_page(resident.as_slice(), group.page) && is_detailed
    }

    /// Returns the cut: the clusters, ascending, whose home is open and that no open group made.
    ///
    /// The resident pages may be any ascending list. Over a closed one each path from a leaf to a
    /// root meets exactly one cluster of the cut (`cut_laws`).
    pub fn cut(&self, alloc: Global, lens: &Lens, resident: &Nums) -> Result<Nums, Memory>
        requires range { IsInRange self.now }
        requires checked { Checked self.now }
        requires ascending { IsStrictlyIncreasing resident.now }
        ensures cut { IfOk result (λ cut. cut ≡ cut_of self.now lens.now resident.now) }
    {
        let open = self.open_groups(alloc, lens, resident)?;
        let homes = self.homes(alloc)?;
        let mut cut = Vec::new(alloc);
        for c in 0..homes.len() {
            if is_drawn(&open, homes[c], self.cluster(c).made) {
                cut.push(c as u32)?;
            }
        }
        Ok(Nums::of(cut))
    }

    /// Returns for each group whether it is open.
    fn open_groups(&self, alloc: Global, lens: &Lens, resident: &Nums) -> Result<Vec<bool>, Memory>
        requires range { IsInRange self.now }
        requires ascending { IsStrictlyIncreasing resident.now }
        ensures marks { IfOk result (λ marks. marks.items ≡
            map (is_open self.now lens.now resident.now) (range_with_len 0 (length self.now.groups))) }
    {
        let count = self.groups.as_slice().len();
        let mut open = Vec::with_capacity(alloc, count)?;
        for g in 0..count {
            open.push(self.is_open(g as u32, lens, resident))?;
        }
        Ok(open)
    }
}

/// Whether a cluster of an open home was made by no open group; the open groups are marked.
fn is_drawn(marks: &[bool], home: u32, made: Option<u32>) -> bool
    requires home { home < length marks.now }
    requires maker { ForSome made (λ m. m < length marks.now) }
    ensures drawn { result ≡ (is_marked marks.now home && not (is_marked_maker marks.now made)) }
{
    marks[home as usize] && !is_maker_open(marks, made)
}

/// Whether the maker is an open group.
fn is_maker_open(marks: &[bool], made: Option<u32>) -> bool
    requires maker { ForSome made (λ m. m < length marks.now) }
    ensures maker { result ≡ is_marked_maker marks.now made }
{
    match made {
        None => false,
        Some(maker) => marks[maker as usize],
    }
}

/// Whether an ascending list has a page. The page is found by halving.
fn has_page(pages: &[u32], page: u32) -> bool
    requires ascending { IsStrictlyIncreasing pages.now }
    ensures page { result ≡ has_page pages.now page }
{
    pages.binary_search(&page).is_ok()
}
