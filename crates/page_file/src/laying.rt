ghost use Rattle.std.specs.Prelude.{◌≡◌, ◌≤◌, ◌<◌, ◌+◌, IfOk, length, map, sum_by};
ghost use Rattle.geom_core.specs.declared.limits.TheConstants.{CLUSTERS_PER_GROUP, PAGE_TRIANGLES};
ghost use Rattle.dag_core.specs.Members.{cluster_at};
ghost use Rattle.std.specs.List.{range_with_len};
ghost use Rattle.dag_core.specs.Ranges.{IsInRange};
ghost use Rattle.dag_core.specs.Rules.{KeepsRulesBelow};
ghost use Rattle.dag_core.specs.TriangleRules.{CanBeLaidOut, IsLaidOut};
ghost use Rattle.page_file.specs.PagesRule.{group_size, laid_group, laid_out, page_count, root_count};

use crate::fillings::Filling;
use dag_core::{Dag, Group, Groups, Heads};
use geom_core::Memory;
use std::alloc::Global;

/// The groups on their pages, and the number of these pages.
#[derive(Drop)]
struct LaidGroups {
    groups: Vec<Group>,
    pages: u32,
}

/// Returns the number of triangles of `count` clusters, from number `first` on.
fn count_tris(heads: &Heads, first: u32, count: u32) -> u32
    requires range { IsInRange heads.now }
    requires member_range { first + count ≤ length heads.now.clusters }
    requires count_limit { count ≤ CLUSTERS_PER_GROUP }
    ensures size { result ≡ sum_by (λ c. (cluster_at heads.now c).tris) (range_with_len first count) }
{
    let clusters = heads.clusters.as_slice();
    let mut size = 0;
    'members: for k in 0..count {
        size += clusters[(first + k) as usize].tris;
    }
    size
}

/// Returns the number of a group's triangles.
#[tactic(auto, unfolding(crate::specs::PagesRule::group_size))]
fn group_size(heads: &Heads, g: u32) -> u32
    requires range { IsInRange heads.now }
    requires rules { KeepsRulesBelow 5 heads.now }
    requires group_range { g < length heads.now.groups }
    ensures size { result ≡ group_size heads.now g }
    ensures some_triangle { 1 ≤ result }
    ensures size_limit { result ≤ PAGE_TRIANGLES }
{
    let group = heads.groups.as_slice()[g as usize];
    count_tris(heads, group.first, group.count)
}

/// Returns the number of root pages: the pages that the terminal groups fill.
#[tactic(auto, unfolding(crate::specs::PagesRule::root_count))]
fn root_count(heads: &Heads) -> u32
    requires range { IsInRange heads.now }
    requires rules { KeepsRulesBelow 5 heads.now }
    ensures roots { result ≡ root_count heads.now }
{
    let groups = heads.groups.as_slice();
    let mut filling = Filling::closed_at(0);
    'groups: for g in 0..groups.len() as u32 {
        if groups[g as usize].terminal {
            filling.place(group_size(heads, g));
        }
    }
    filling.begun
}

/// Returns the groups on their pages: the terminal ones from page 0 on, the others from page `roots` on.
fn lay_groups(alloc: Global, heads: &Heads, roots: u32) -> Result<LaidGroups, Memory>
    requires range { IsInRange heads.now }
    requires rules { KeepsRulesBelow 5 heads.now }
    requires roots { roots ≡ root_count heads.now }
    ensures groups { IfOk result (λ laid. laid.groups.items
        ≡ map (laid_group heads.now) (range_with_len 0 (length heads.now.groups))) }
    ensures pages { IfOk result (λ laid. laid.pages ≡ page_count heads.now) }
{
    let groups = heads.groups.as_slice();
    let mut laid = Vec::with_capacity(alloc, groups.len())?;
    let mut root = Filling::closed_at(0);
    let mut other = Filling::closed_at(roots);
    'groups: for g in 0..groups.len() as u32 {
        let group = groups[g as usize];
        let size = group_size(heads, g);
        let page = if group.terminal {
            root.place(size)
        } else {
            other.place(size)
        };
        laid.push(Group { page, ..group })?;
    }
    Ok(LaidGroups {
        groups: laid,
        pages: other.begun,
    })
}

/// Lays a DAG out on pages by the pages rule. The groups' pages and the two page counts are set, whatever they were;
/// nothing else changes. Its memory is that of the groups.
///
/// Groups are placed whole, by next fit, on pages of at most `PAGE_TRIANGLES` triangles: first the terminal groups,
/// ascending by number, from page 0 on; then the others, ascending, from a new page on. The pages of the terminal
/// groups are the root pages.
#[tactic(auto, unfolding(crate::specs::PagesRule::laid_heads))]
pub fn lay_out(alloc: Global, dag: Dag) -> Result<Dag, Memory>
    requires rules { CanBeLaidOut dag }
    ensures dag { IfOk result (λ laid. laid ≡ laid_out dag) }
    ensures laid_out { IfOk result IsLaidOut }
{
    let roots = root_count(&dag.heads);
    let LaidGroups { groups, pages } = lay_groups(alloc, &dag.heads, roots)?;
    let Dag { heads, tris } = dag;
    let Heads {
        clusters,
        sources,
        ..
    } = heads;
    let heads = Heads {
        groups: Groups::of(groups),
        clusters,
        pages,
        roots,
        sources,
    };
    Ok(Dag { heads, tris })
}
