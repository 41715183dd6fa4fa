ghost use Rattle.std.specs.Prelude.{◌≡◌, ◌≤◌, ◌<◌, ◌*◌, ◌==◌, ℕ, true, false, List, None, IfOk, OnOk, length, All};
ghost use Rattle.std.specs.Prelude.{if◌then◌else◌, slice_index_or};
ghost use Rattle.std.specs.List.{list_any};
ghost use Rattle.geom_core.specs.declared.limits.TheConstants.{TRIANGLES_PER_GROUP};
ghost use Rattle.geom_core.specs.declared.points.Pt.{Pt};
ghost use Rattle.geom_core.specs.declared.triangles.Tri.{Tri};
ghost use Rattle.rim_collapse.specs.Internal.Bests.{AreRight, IsBestAmong, IsBestAt, lesser_of};
ghost use Rattle.rim_collapse.specs.Internal.Faces.{left, point_at, tris_at};
ghost use Rattle.rim_collapse.specs.Internal.Marks.{IsSetBelow};
ghost use Rattle.rim_collapse.specs.Internal.Meshes.{IsMesh};

use crate::chains::Chains;
use crate::faces::{Face, point_at};
use crate::keys::Key;
use crate::least::least_of;
use crate::rounds::{Round, list_round};
use geom_core::{Memory, Pt};
use std::alloc::Global;
use std::collections::BTreeSet;

/// Returns the least legal collapse of the point with number `n`, or `None`; no collapse of a locked point is legal.
/// Only the triangles round the point decide it.
fn best_at(
    round: &mut Round,
    points: &[Pt],
    faces: &[Face],
    chains: &Chains,
    locked: &BTreeSet<Pt>,
    n: u32,
) -> Result<Option<Key>, Memory>
    requires members { IsSetBelow (length points.now) round.old.targets }
    requires mesh { IsMesh points.now faces.now chains.now }
    requires number { n < length points.now }
    ensures members { IfOk result (λ best. IsSetBelow (length points.now) round.new.targets) }
    ensures best { IfOk result (IsBestAt (tris_at points.now (left faces.now)) locked.now.keys
        (point_at points.now n)) }
{
    let point = point_at(points, n);
    if locked.contains(&point) {
        return Ok(None);
    }
    list_round(round, points, faces, chains, n)?;
    Ok(least_of(&round.facets, points, &round.targets.members, point))
}

/// Whether the collapse of one point sorts before that of another; both may be missing.
fn goes_before(other: &Option<Key>, best: &Option<Key>) -> bool
    ensures { lesser_of best.now other.now ≡ (if result then other.now else best.now) }
{
    match other {
        None => false,
        Some(next) => match best {
            None => true,
            Some(key) => next.cmp(key).is_lt(),
        },
    }
}

/// Returns the least legal collapse of one of the points, or `None`.
pub(crate) fn least_best(bests: &[Option<Key>]) -> Option<Key>
    ensures { (tris : List Tri) → (locked points : List Pt) → length bests.now ≡ length points →
        AreRight tris locked points bests.now → IsBestAmong tris locked points result }
{
    if bests.is_empty() {
        return None;
    }
    let mut least = 0;
    'bests: for k in 1..bests.len() {
        if goes_before(&bests[k], &bests[least]) {
            least = k;
        }
    }
    bests[least]
}

/// Asks the listed points anew: puts the least legal collapse of each in place of what was listed, and leaves those of
/// all other points.
pub(crate) fn refresh(
    bests: &mut Vec<Option<Key>>,
    round: &mut Round,
    points: &[Pt],
    faces: &[Face],
    chains: &Chains,
    locked: &BTreeSet<Pt>,
    asked: &[u32],
) -> Result<(), Memory>
    requires members { IsSetBelow (length points.now) round.old.targets }
    requires mesh { IsMesh points.now faces.now chains.now }
    requires count { length bests.old.items ≡ length points.now }
    requires numbers { All (λ m. m < length points.now) asked.now }
    ensures members { OnOk result (IsSetBelow (length points.now) round.new.targets) }
    ensures count { OnOk result (length bests.new.items ≡ length points.now) }
    ensures asked { OnOk result ((k : ℕ) → k < length points.now →
        list_any (λ m. m == k) asked.now ≡ true →
        IsBestAt (tris_at points.now (left faces.now)) locked.now.keys (point_at points.now k)
        (slice_index_or bests.new.items k None)) }
    ensures others { OnOk result ((k : ℕ) → list_any (λ m. m == k) asked.now ≡ false →
        slice_index_or bests.new.items k None ≡ slice_index_or bests.old.items k None) }
{
    for n in asked {
        bests[*n as usize] = best_at(round, points, faces, chains, locked, *n)?;
    }
    Ok(())
}

/// Returns each point's least legal collapse, by number.
pub(crate) fn first_bests(
    alloc: Global,
    round: &mut Round,
    points: &[Pt],
    faces: &[Face],
    chains: &Chains,
    locked: &BTreeSet<Pt>,
) -> Result<Vec<Option<Key>>, Memory>
    requires members { IsSetBelow (length points.now) round.old.targets }
    requires mesh { IsMesh points.now faces.now chains.now }
    requires point_limit { length points.now ≤ 3 * TRIANGLES_PER_GROUP }
    ensures members { IfOk result (λ bests. IsSetBelow (length points.now) round.new.targets) }
    ensures count { IfOk result (λ bests. length bests.items ≡ length points.now) }
    ensures right { IfOk result (λ bests. AreRight (tris_at points.now (left faces.now))
        locked.now.keys points.now bests.items) }
{
    let mut bests = Vec::with_capacity(alloc, points.len())?;
    for n in 0..points.len() {
        bests.push(best_at(round, points, faces, chains, locked, n as u32)?)?;
    }
    Ok(bests)
}
