ghost use Rattle.std.specs.Prelude.{◌≡◌, ◌≤◌, ◌<◌, ◌*◌, ◌-◌, IfOk, OnOk, IsTrue, ℕ, true, List, length, map, All};
ghost use Rattle.std.specs.Prelude.{AllPairs, Contains, slice_index_or};
ghost use Rattle.std.specs.declared.cmp.Ordering.TheVariants.{Less};
ghost use Rattle.geom_core.specs.declared.limits.TheConstants.{TRIANGLES_PER_GROUP};
ghost use Rattle.geom_core.specs.declared.points.Pt.{Pt};
ghost use Rattle.geom_core.specs.declared.triangles.Tagged.{Tagged};
ghost use Rattle.geom_core.specs.Corners.{IsCornerIn};
ghost use Rattle.geom_core.specs.EdgeSum.{edge_sum, OnRim};
ghost use Rattle.geom_core.specs.Limits.{IsGridTriangle};
ghost use Rattle.geom_core.specs.Order.{point_cmp};
ghost use Rattle.geom_core.specs.TaggedLists.{tris_of};
ghost use Rattle.rim_collapse.specs.declared.faces.Face.{Face};
ghost use Rattle.rim_collapse.specs.declared.states.Kept.{Kept};
ghost use Rattle.rim_collapse.specs.Internal.Bests.{AreRight};
ghost use Rattle.rim_collapse.specs.Internal.Faces.{IsNumbered, face_to, left, point_at, state_of, tris_at};
ghost use Rattle.rim_collapse.specs.Internal.Marks.{AreMarkedRound};
ghost use Rattle.rim_collapse.specs.Internal.Progress.{IsProgress};
ghost use Rattle.rim_collapse.specs.Internal.Steps.{IsNextOf};
ghost use Rattle.rim_collapse.specs.Legal.{has_edge, is_among};
ghost use Rattle.rim_collapse.specs.Moved.{moved_of};
ghost use Rattle.rim_collapse.specs.Simplified.{IsSimplified};
ghost use Rattle.rim_collapse.specs.Sound.{IsSound};
ghost use Rattle.rim_collapse.specs.States.{after, begun, tagged_of};

use crate::bests::{first_bests, least_best, refresh};
use crate::chains::{Chains, chains_of, join, list_corners};
use crate::faces::{Face, faces_of, kept_of, move_corners};
use crate::keys::Key;
use crate::number_sets::{NumberSet, empty_set};
use crate::points::{number_of, points_of};
use crate::rounds::{Round, empty_round, put_round};
use crate::states::{Kept, moved, tagged};
use geom_core::{Memory, Pt, Tagged, TaggedTris};
use std::alloc::Global;
use std::collections::BTreeSet;

/// A simplified list.
#[derive(Debug, Drop)]
pub struct Simplified {
    /// The triangles that are left, in the order of the list that was given, each with its source.
    pub tris: TaggedTris,
    /// The greatest Chebyshev distance of a corner from its place in the list that was given, in grid steps; 0 if
    /// no triangle is left.
    pub moved: u32,
}

/// The triangles that are left, and each point's least legal collapse.
#[derive(Drop)]
struct Progress {
    /// The faces of all triangles that were given; those with a number twice are no longer left.
    faces: Vec<Face>,
    /// How many of them are left.
    left: usize,
    /// The corners of each point.
    chains: Chains,
    /// Each point's least legal collapse, by number.
    bests: Vec<Option<Key>>,
    /// The points that are asked anew.
    asked: NumberSet,
    /// What lies round one point.
    round: Round,
}

/// Returns the next collapse, or `None` if at most half of the `count` triangles are left or no collapse is legal.
fn next_collapse(bests: &[Option<Key>], left: usize, count: usize) -> Option<Key>
    requires triangle_limit { left ≤ TRIANGLES_PER_GROUP }
    ensures { (tris : List Tagged) (locked points : List Pt) (faces : List Face) →
        left ≡ length faces → All (IsNumbered (length points)) faces → length bests.now ≡ length points →
        AreRight (tris_at points faces) locked points bests.now →
        IsNextOf locked count (state_of tris points faces) result }
{
    if 2 * left <= count {
        return None;
    }
    least_best(bests)
}

/// Does a collapse of point `a` to point `b`. Lists the corners of the triangles that it changes in `asked`.
fn collapse(progress: &mut Progress, points: &[Pt], a: u32, b: u32) -> Result<(), Memory>
    requires progress { IsProgress points.now progress.old }
    requires ascending { AllPairs (λ p q. point_cmp p q ≡ Less) points.now }
    requires a { a < length points.now }
    requires b { b < length points.now }
    requires edge { has_edge (tris_at points.now (left progress.old.faces.items))
        (point_at points.now a) (point_at points.now b) ≡ true }
    ensures progress { OnOk result (IsProgress points.now progress.new) }
    ensures faces { OnOk result (
        progress.new.faces.items ≡ map (face_to a b) progress.old.faces.items) }
    ensures bests { OnOk result (progress.new.bests ≡ progress.old.bests) }
    ensures asked { OnOk result (
        AreMarkedRound a progress.new.asked.marks.items (left progress.old.faces.items)) }
{
    list_corners(&mut progress.round.corners, &progress.chains, a)?;
    put_round(
        &mut progress.asked,
        &progress.faces,
        &progress.round.corners,
    )?;
    progress.left -= move_corners(&mut progress.faces, &progress.round.corners, a, b);
    join(&mut progress.chains, a, b, last_of(&progress.round.corners));
    Ok(())
}

/// Returns the last of the corners.
fn last_of(corners: &[u32]) -> u32
    requires count { 0 < length corners.now }
    ensures { result ≡ slice_index_or corners.now (length corners.now - 1) 0 }
{
    corners[corners.len() - 1]
}

/// Does a collapse of a to b. Asks the points anew round which it changes triangles; the least legal collapse of each
/// other point stays, as only the triangles round a point decide it.
fn step(
    progress: &mut Progress,
    points: &[Pt],
    locked: &BTreeSet<Pt>,
    a: Pt,
    b: Pt,
) -> Result<(), Memory>
    requires progress { IsProgress points.now progress.old }
    requires point_limit { length points.now ≤ 3 * TRIANGLES_PER_GROUP }
    requires ascending { AllPairs (λ p q. point_cmp p q ≡ Less) points.now }
    requires right { AreRight (tris_at points.now (left progress.old.faces.items)) locked.now.keys
        points.now progress.old.bests.items }
    requires edge { has_edge (tris_at points.now (left progress.old.faces.items)) a b ≡ true }
    ensures progress { OnOk result (IsProgress points.now progress.new) }
    ensures was { OnOk result ((count : ℕ) → All (λ f. f.was < count) progress.old.faces.items →
        All (λ f. f.was < count) progress.new.faces.items) }
    ensures state { OnOk result ((tris : List Tagged) →
        state_of tris points.now (left progress.new.faces.items)
        ≡ after a b (state_of tris points.now (left progress.old.faces.items))) }
    ensures right { OnOk result (AreRight (tris_at points.now (left progress.new.faces.items))
        locked.now.keys points.now progress.new.bests.items) }
{
    let from = number_of(points, a);
    let to = number_of(points, b);
    collapse(progress, points, from, to)?;
    refresh(
        &mut progress.bests,
        &mut progress.round,
        points,
        &progress.faces,
        &progress.chains,
        locked,
        &progress.asked.members,
    )?;
    Ok(())
}

/// Returns the state before any collapse.
fn begin(
    alloc: Global,
    tris: &[Tagged],
    points: &[Pt],
    locked: &BTreeSet<Pt>,
) -> Result<Progress, Memory>
    requires triangle_limit { length tris.now ≤ TRIANGLES_PER_GROUP }
    requires point_limit { length points.now ≤ 3 * TRIANGLES_PER_GROUP }
    requires ascending { AllPairs (λ p q. point_cmp p q ≡ Less) points.now }
    requires corners { (p : Pt) → IsCornerIn (tris_of tris.now) p → Contains points.now p }
    requires triangles { All IsGridTriangle (tris_of tris.now) }
    ensures progress { IfOk result (IsProgress points.now) }
    ensures was { IfOk result (λ progress.
        All (λ f. f.was < length tris.now) progress.faces.items) }
    ensures state { IfOk result (λ progress.
        state_of tris.now points.now (left progress.faces.items) ≡ begun tris.now) }
    ensures right { IfOk result (λ progress.
        AreRight (tris_at points.now (left progress.faces.items)) locked.now.keys points.now
        progress.bests.items) }
{
    let faces = faces_of(alloc, points, tris)?;
    let chains = chains_of(alloc, &faces, points.len())?;
    let asked = empty_set(alloc, points.len())?;
    let mut round = empty_round(alloc, points.len())?;
    let bests = first_bests(alloc, &mut round, points, &faces, &chains, locked)?;
    Ok(Progress {
        faces,
        left: tris.len(),
        chains,
        bests,
        asked,
        round,
    })
}

/// Returns the state to which a list is simplified.
fn end_state(alloc: Global, tris: &[Tagged], locked: &BTreeSet<Pt>) -> Result<Vec<Kept>, Memory>
    requires triangle_limit { length tris.now ≤ TRIANGLES_PER_GROUP }
    requires triangles { All IsGridTriangle (tris_of tris.now) }
    ensures { IfOk result (λ kept. IsSimplified tris.now locked.now.keys kept.items) }
{
    let points = points_of(alloc, tris)?;
    let mut progress = begin(alloc, tris, &points, locked)?;
    'collapses: while let Some(key) = next_collapse(&progress.bests, progress.left, tris.len()) {
        step(&mut progress, &points, locked, key.from, key.to)?;
    }
    let kept = kept_of(alloc, tris, &points, &progress.faces)?;
    Ok(kept)
}

/// Simplifies a list of triangles: does the least legal collapse of a point that isn't locked, again and again, until
/// at most half of the triangles are left or no collapse is legal.
///
/// The collapse with the least cost is done first; at equal cost the shortest, then the one of the least point, then
/// the one with the least target. The triangles that are left keep their order, their sources and the places of their
/// corners. How well the result looks is not promised. On `Memory` the list is gone.
pub fn simplify(
    alloc: Global,
    tris: Vec<Tagged>,
    locked: &BTreeSet<Pt>,
) -> Result<Simplified, Memory>
    requires triangle_limit { length tris.items ≤ TRIANGLES_PER_GROUP }
    requires triangles { All IsGridTriangle (tris_of tris.items) }

    // The result is that of the rule.
    ensures simplified { IfOk result (λ simplified. (kept : List Kept)
        × IsSimplified tris.items locked.now.keys kept
        × (simplified.tris ≡ map tagged_of kept) × (simplified.moved ≡ moved_of kept)) }

    // What follows, by `laws`.
    ensures sums { IfOk result (λ simplified.
        ((p : Pt) → OnRim (tris_of tris.items) p → IsTrue (is_among locked.now.keys p)) →
        (u v : Pt) →
        edge_sum (tris_of simplified.tris) u v ≡ edge_sum (tris_of tris.items) u v) }
    ensures sound { IfOk result (λ simplified.
        IsSound tris.items simplified.tris simplified.moved) }
{
    let kept = end_state(alloc, &tris, locked)?;
    let left = tagged(alloc, &kept)?;
    Ok(Simplified {
        tris: TaggedTris::of(left),
        moved: moved(&kept),
    })
}
