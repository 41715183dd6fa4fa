ghost use Rattle.std.specs.Prelude.{◌≡◌, ◌<◌, length};
ghost use Rattle.std.specs.Option.{ForSome};
ghost use Rattle.geom_core.specs.declared.limits.TheConstants.{PAGE_TRIANGLES};
ghost use Rattle.dag_core.specs.Ranges.{IsInRange, is_count_to};
ghost use Rattle.dag_core.specs.Rules.{KeepsRulesBelow, breaks_bound, breaks_maker, breaks_members, breaks_page, breaks_terminal, is_maker_at_most, is_maker_outside, is_outgrown};
ghost use Rattle.dag_core.specs.Internal.FirstPlaces.{IsFirstPlace};
ghost use Rattle.dag_core.specs.Internal.Tables.{homes_of, is_bad_page, later_uppers_of, makers_of, page_tris_of, terminal_pages_of};

use crate::groups::Group;
use crate::heads::Heads;
use geom_core::limits::PAGE_TRIANGLES;

impl Heads {
    /// Returns the first index at which rule 1 is broken.
    pub(crate) fn members_break(&self) -> Option<u32>
        requires range { IsInRange self.now }
        ensures place { IsFirstPlace (breaks_members self.now) result }
    {
        let mut before = 0u32;
        for g in 0..self.groups.as_slice().len() {
            let group = self.group(g);
            if group.first != before {
                return Some(g as u32);
            }
            before += group.count;
        }
        if before as usize == self.clusters.as_slice().len() {
            None
        } else {
            Some(self.groups.as_slice().len() as u32)
        }
    }

    /// Returns the first cluster at which rule 2 is broken.
    pub(crate) fn maker_break(&self, homes: &[u32]) -> Option<u32>
        requires range { IsInRange self.now }
        requires homes { homes.now ≡ homes_of self.now }
        ensures place { IsFirstPlace (breaks_maker self.now) result }
    {
        for c in 0..homes.len() {
            if is_maker_at_most(homes[c], self.cluster(c).made) {
                return Some(c as u32);
            }
        }
        None
    }

    /// Returns the first group at which rule 3 is broken.
    pub(crate) fn terminal_break(&self, makers: &[bool]) -> Option<u32>
        requires range { IsInRange self.now }
        requires makers { makers.now ≡ makers_of self.now }
        ensures place { IsFirstPlace (breaks_terminal self.now) result }
    {
        for g in 0..makers.len() {
            if self.group(g).terminal == makers[g] {
                return Some(g as u32);
            }
        }
        None
    }

    /// Returns the first cluster at which rule 4 is broken.
    pub(crate) fn bound_break(&self, homes: &[u32]) -> Option<u32>
        requires range { IsInRange self.now }
        requires members { KeepsRulesBelow 2 self.now }
        requires homes { homes.now ≡ homes_of self.now }
        ensures place { IsFirstPlace (breaks_bound self.now) result }
    {
        for c in 0..homes.len() {
            if self.is_maker_outside(homes[c], self.cluster(c).made) {
                return Some(c as u32);
            }
        }
        None
    }

    /// Whether a cluster has a maker that its home doesn't bound.
    fn is_maker_outside(&self, home: u32, maker: Option<u32>) -> bool
        requires home { home < length self.now.groups }
        requires maker { ForSome maker (λ m. m < length self.now.groups) }
        ensures outside { result ≡ is_maker_outside self.now home maker }
    {
        match maker {
            None => false,
            Some(maker) => is_outgrown(self.group(home as usize), self.group(maker as usize)),
        }
    }

    /// Returns the first page at which rule 5 is broken.
    pub(crate) fn page_break(&self, tris: &[u32], terminal: &[bool], later: &[bool]) -> Option<u32>
        requires range { IsInRange self.now }
        requires members { KeepsRulesBelow 2 self.now }
        requires tris { tris.now ≡ page_tris_of self.now }
        requires terminal { terminal.now ≡ terminal_pages_of self.now }
        requires later { later.now ≡ later_uppers_of self.now }
        ensures place { IsFirstPlace (breaks_page self.now) result }
    {
        for p in 0..tris.len() {
            if is_bad_page(self.roots as usize, p, tris[p], terminal[p], later[p]) {
                return Some(p as u32);
            }
        }
        None
    }
}

/// Whether a cluster has a maker that isn't a greater group than its home.
fn is_maker_at_most(home: u32, maker: Option<u32>) -> bool
    ensures at_most { result ≡ is_maker_at_most home maker }
{
    match maker {
        None => false,
        Some(maker) => maker <= home,
    }
}

/// Whether a home doesn't bound a group that made one of its members: that group's error is greater, though the
/// home isn't terminal, or its box doesn't lie in the home's.
#[tactic(auto, unfolding(crate::specs::Rules::is_outgrown))]
fn is_outgrown(home: Group, maker: Group) -> bool
    ensures outgrown { result ≡ is_outgrown home maker }
{
    let grows = !home.terminal && home.error < maker.error;
    grows || !home.cube.contains(maker.cube)
}

/// Whether a page has no triangle or too many, or a terminal group though it is no root page, or a later upper.
#[tactic(auto, unfolding(crate::specs::Internal::Tables::is_bad_page))]
fn is_bad_page(roots: usize, p: usize, tris: u32, has_terminal: bool, has_later_upper: bool) -> bool
    ensures bad { result ≡ is_bad_page roots p tris has_terminal has_later_upper }
{
    let fits = 1 <= tris && tris <= PAGE_TRIANGLES;
    let strays = roots <= p && has_terminal;
    !fits || strays || has_later_upper
}
