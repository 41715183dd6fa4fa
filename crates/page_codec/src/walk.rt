ghost use Rattle.std.specs.Prelude.{◌≡◌, ◌≤◌, ◌<◌, ◌+◌, ◌^◌, drop, length, slice_index_or, IfSome};
ghost use Rattle.dag_core.specs.Members.{group_at};
ghost use Rattle.page_codec.specs.PageLinks.{IsIndexOf, next_in, next_on};

use crate::page_indexes::PageIndex;
use dag_core::{Group, Heads};

/// Returns the first group on the page from group `from` on, or the number of groups.
#[tactic(auto, unfolding(crate::specs::PageLinks::next_on))]
fn scan(groups: &[Group], page: u32, from: u32) -> u32
    requires group_limit { length groups.now < 2 ^ 32 }
    requires from_range { from ≤ length groups.now }
    ensures group { result ≡ next_on groups.now page from }
{
    'groups: for g in from as usize..groups.len() {
        if groups[g].page == page {
            return g as u32;
        }
    }
    groups.len() as u32
}

/// Returns the first group on the page, or the number of groups.
pub(crate) fn first_group(heads: &Heads, index: Option<&PageIndex>, page: u32) -> u32
    requires group_limit { length heads.now.groups < 2 ^ 32 }
    requires page_range { page < heads.now.pages }
    requires index { IfSome index (λ links. IsIndexOf heads.now links.now) }
    ensures group { result ≡ next_on heads.now.groups page 0 }
{
    match index {
        Some(links) => links.first(page),
        None => scan(heads.groups.as_slice(), page, 0),
    }
}

/// Returns the next group after this one on its page, or the number of groups.
pub(crate) fn next_group(heads: &Heads, index: Option<&PageIndex>, group: u32) -> u32
    requires group_limit { length heads.now.groups < 2 ^ 32 }
    requires group_range { group < length heads.now.groups }
    requires index { IfSome index (λ links. IsIndexOf heads.now links.now) }
    ensures group { result ≡ next_on heads.now.groups (group_at heads.now group).page (group + 1) }
{
    match index {
        Some(links) => links.next(group),
        None => {
            let groups = heads.groups.as_slice();
            scan(groups, groups[group as usize].page, group + 1)
        }
    }
}
