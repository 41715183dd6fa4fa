ghost use Rattle.std.specs.Prelude.{◌≡◌, length};
ghost use Rattle.dag_core.specs.Ranges.{are_members, is_group_box, is_group_or_none};
ghost use Rattle.geom_core.specs.Boxes.{is_under};
ghost use Rattle.geom_core.specs.Limits.{has_grid_corners};
ghost use Rattle.page_codec.specs.Breaks.{first_of, group_rules, head_rules, triangle_rules};

use crate::records::group_from;
use dag_core::{ClusterHead, Counts};
use geom_core::limits::{CLUSTERS_PER_GROUP, MAX_ERROR, TRIANGLES_PER_CLUSTER};
use geom_core::{Cube, Pt, Tagged, Tri};

/// Whether each corner may be a point of a mesh.
fn has_grid_corners(t: Tri) -> bool
    ensures corners { result ≡ has_grid_corners t }
{
    t.a.is_grid_point() && t.b.is_grid_point() && t.c.is_grid_point()
}

/// Returns the least rule that the triangle breaks.
#[tactic(auto, unfolding(crate::specs::Breaks::triangle_rules))]
pub(crate) fn triangle_rule(sources: u32, t: Tagged) -> Option<u8>
    ensures rule { result ≡ first_of (triangle_rules sources t) }
{
    if !has_grid_corners(t.tri) {
        return Some(1);
    }
    if !t.tri.has_distinct_corners() {
        return Some(2);
    }
    (t.source >= sources).then_some(3)
}

/// Whether p is at most q on each axis.
#[tactic(auto, unfolding(geom_core::specs::Boxes::is_under))]
fn is_under(p: Pt, q: Pt) -> bool
    ensures order { result ≡ is_under p q }
{
    p.x <= q.x && p.y <= q.y && p.z <= q.z
}

/// Whether the box may be a group's: its corners are points of a mesh, the low one not above the high one.
fn is_group_box(cube: Cube) -> bool
    ensures box_range { result ≡ is_group_box cube }
{
    cube.lo.is_grid_point() && cube.hi.is_grid_point() && is_under(cube.lo, cube.hi)
}

/// Whether a group may have this first member and this number of members.
fn are_members(counts: &Counts, first: u32, count: u32) -> bool
    ensures member_range { result ≡ are_members counts.now first count }
{
    1 <= count && count <= CLUSTERS_PER_GROUP && first <= counts.clusters
}

/// Returns the least rule that a group of these eleven numbers breaks.
#[tactic(auto, unfolding(crate::specs::Breaks::group_rules))]
pub(crate) fn group_rule(counts: &Counts, numbers: &[u32]) -> Option<u8>
    requires length { length numbers.now ≡ 11 }
    ensures rule { result ≡ first_of (group_rules counts.now numbers.now) }
{
    let group = group_from(numbers);
    if group.error > MAX_ERROR {
        return Some(1);
    }
    if numbers[1] > 1 {
        return Some(2);
    }
    if !is_group_box(group.cube) {
        return Some(3);
    }
    if group.page >= counts.pages {
        return Some(4);
    }
    (!are_members(counts, group.first, group.count)).then_some(5)
}

/// Whether the cluster's maker is a group's number or none.
fn has_maker_in_range(counts: &Counts, head: ClusterHead) -> bool
    ensures maker_range { result ≡ is_group_or_none counts.now head.made }
{
    match head.made {
        Some(maker) => maker < counts.groups,
        None => true,
    }
}

/// Returns the least rule that the cluster breaks.
#[tactic(auto, unfolding(crate::specs::Breaks::head_rules))]
pub(crate) fn head_rule(counts: &Counts, head: ClusterHead) -> Option<u8>
    ensures rule { result ≡ first_of (head_rules counts.now head) }
{
    if !has_maker_in_range(counts, head) {
        return Some(6);
    }
    (head.tris < 1 || head.tris > TRIANGLES_PER_CLUSTER).then_some(7)
}
