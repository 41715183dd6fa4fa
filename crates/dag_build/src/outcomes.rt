ghost use Rattle.std.specs.Prelude.{false, if◌then◌else◌, ◌≡◌, ◌≤◌, ◌<◌, ◌*◌, ◌++◌, OnOk, IfOk, Some, List, length, All};
ghost use Rattle.geom_core.specs.declared.limits.TheConstants.{MAX_ERROR, CLUSTERS_PER_GROUP, TRIANGLES_PER_CLUSTER, TRIANGLES_PER_GROUP};
ghost use Rattle.geom_core.specs.declared.triangles.Tagged.{Tagged};
ghost use Rattle.geom_core.specs.Boxes.{hull_of};
ghost use Rattle.geom_core.specs.Limits.{IsGridTriangle};
ghost use Rattle.geom_core.specs.TaggedLists.{tris_of};
ghost use Rattle.geom_core.specs.declared.points.Pt.{Pt};
ghost use Rattle.rim_collapse.specs.Legal.{is_among};
ghost use Rattle.dag_build.specs.Levels.{tris_in};
ghost use Rattle.dag_build.specs.Outcomes.{AreMade, AreRimPoints, IsOutcome, box_points, greatest_error, is_terminal, maker_error, points_of};
ghost use Rattle.dag_build.specs.Internal.Groups.{group_of};

use crate::clusters::Cluster;
use crate::corners::push_corners;
use crate::level_clusters::Maker;
use geom_core::limits::MAX_ERROR;
use geom_core::{Cube, Memory, Pt, Tagged, TaggedTris};
use half_mesh::Rim;
use rim_collapse::simplify;
use std::alloc::Global;
use std::collections::BTreeSet;

/// What becomes of a group.
#[derive(Drop)]
pub(crate) struct Outcome {
    /// What is left of the members' triangles.
    pub left: TaggedTris,
    /// The group's error, in grid steps: 0 if it is terminal.
    pub error: u32,
    /// Whether the group makes nothing.
    pub terminal: bool,
    /// The group's box.
    pub cube: Cube,
}

/// Simplifies a group of a level that has `level_clusters` clusters.
pub(crate) fn outcome_of(
    alloc: Global,
    members: &[Cluster],
    level_clusters: usize,
) -> Result<Outcome, Memory>
    requires member_limit { length members.now ≤ CLUSTERS_PER_GROUP }
    requires triangles { 1 ≤ length (tris_in members.now) }
    ensures outcome { IfOk result (λ outcome. (made : List (List Tagged)) →
        AreMade TRIANGLES_PER_CLUSTER outcome.terminal outcome.left made →
        IsOutcome TRIANGLES_PER_CLUSTER level_clusters
        (group_of members.now outcome.error outcome.terminal outcome.cube made)) }
    ensures triangle_limit { IfOk result (λ outcome. length outcome.left ≤ TRIANGLES_PER_GROUP) }
    ensures triangle_range { IfOk result (λ outcome. All IsGridTriangle (tris_of outcome.left)) }
{
    let tris = list_tris(alloc, members)?;
    let count = tris.len();
    let locked = locked_points(alloc, members)?;
    let cube = box_of(alloc, members)?;
    let simplified = simplify(alloc, tris, &locked)?;
    let sum = simplified.moved as u64 + greatest_error(members) as u64;
    let terminal = is_terminal(level_clusters, count, simplified.tris.as_slice().len(), sum);
    Ok(Outcome {
        left: simplified.tris,
        error: group_error(terminal, sum),
        terminal,
        cube,
    })
}

/// Returns the triangles of the clusters, in order.
fn list_tris(alloc: Global, members: &[Cluster]) -> Result<Vec<Tagged>, Memory>
    ensures triangles { IfOk result (λ tris. tris.items ≡ tris_in members.now) }
    ensures triangle_limit { IfOk result (λ tris.
        length tris.items ≤ TRIANGLES_PER_CLUSTER * length members.now) }
    ensures triangle_range { IfOk result (λ tris. All IsGridTriangle (tris_of tris.items)) }
{
    let mut tris = Vec::new(alloc);
    for member in members {
        tris.extend_from_slice(member.tris())?;
    }
    Ok(tris)
}

/// Returns the points on the rim of the clusters' triangles.
fn locked_points(alloc: Global, members: &[Cluster]) -> Result<BTreeSet<Pt>, Memory>
    requires member_limit { length members.now ≤ CLUSTERS_PER_GROUP }
    ensures points { IfOk result (λ locked.
        AreRimPoints (tris_of (tris_in members.now)) locked.keys) }
{
    let mut rims = Vec::with_capacity(alloc, members.len())?;
    for member in members {
        rims.push(member.rim())?;
    }
    let rim = Rim::joined(alloc, &rims)?;
    let points = rim.points(alloc)?;
    let set = set_of(alloc, points)?;
    Ok(set)
}

/// Returns the set of these points.
fn set_of(alloc: Global, points: Vec<Pt>) -> Result<BTreeSet<Pt>, Memory>
    ensures points { IfOk result (λ set. (p : Pt) → is_among set.keys p ≡ is_among points.items p) }
{
    Ok(BTreeSet::from_iter(alloc, points)?)
}

/// Returns the box round the clusters and the boxes of their makers.
fn box_of(alloc: Global, members: &[Cluster]) -> Result<Cube, Memory>
    requires triangles { 1 ≤ length (tris_in members.now) }
    ensures cube { IfOk result (λ cube. hull_of (points_of members.now) ≡ Some cube) }
{
    let points = list_points(alloc, members)?;
    Ok(Cube::hull(&points).unwrap())
}

/// Returns the corners of the clusters' triangles and of the boxes of their makers.
fn list_points(alloc: Global, members: &[Cluster]) -> Result<Vec<Pt>, Memory>
    ensures points { IfOk result (λ points. points.items ≡ points_of members.now) }
{
    let mut points = Vec::new(alloc);
    for member in members {
        push_corners(&mut points, member.tris())?;
        push_box(&mut points, member.maker())?;
    }
    Ok(points)
}

/// Appends the two corners of a maker's box.
fn push_box(points: &mut Vec<Pt>, maker: Option<Maker>) -> Result<(), Memory>
    ensures corners { OnOk result (points.new.items ≡ points.old.items ++ box_points maker) }
{
    if let Some(maker) = maker {
        points.push(maker.cube.lo)?;
        points.push(maker.cube.hi)?;
    }
    Ok(())
}

/// Returns the error of a maker: 0 if there is none.
fn maker_error(maker: Option<Maker>) -> u32
    ensures error { result ≡ maker_error maker }
{
    match maker {
        None => 0,
        Some(maker) => maker.error,
    }
}

/// Returns the greatest error of the clusters' makers, or 0.
fn greatest_error(members: &[Cluster]) -> u32
    ensures error { result ≡ greatest_error members.now }
{
    let mut greatest = 0u32;
    for member in members {
        greatest = greatest.max(maker_error(member.maker()));
    }
    greatest
}

/// Returns the error of a group, which is 0 if it is terminal.
fn group_error(terminal: bool, error: u64) -> u32
    requires error_range { terminal ≡ false → error ≤ MAX_ERROR }
    ensures error { result ≡ (if terminal then 0 else error) }
{
    if terminal { 0 } else { error as u32 }
}

/// Whether a group makes nothing. Its level has `level_clusters` clusters, its members have `tris` triangles,
/// of which `left` are left, and `error` is its error if it makes clusters.
#[tactic(auto, unfolding(crate::specs::Outcomes::is_terminal))]
fn is_terminal(level_clusters: usize, tris: usize, left: usize, error: u64) -> bool
    requires triangle_limit { tris ≤ TRIANGLES_PER_GROUP }
    requires left_limit { left ≤ TRIANGLES_PER_GROUP }
    ensures terminal { result ≡ is_terminal level_clusters tris left error }
{
    level_clusters < 2 || left < 1 || 7 * tris < 8 * left || (MAX_ERROR as u64) < error
}
