ghost use Rattle.std.specs.Prelude.{◌≡◌, ◌≤◌, ◌<◌, ◌/◌, true, ℕ, IfOk, OnOk, length, map, All};
ghost use Rattle.std.specs.List.{list_any};
ghost use Rattle.geom_core.specs.Limits.{IsGridTriangle};
ghost use Rattle.rim_collapse.specs.Internal.Chains.{AreChained, chain, faces_at};
ghost use Rattle.rim_collapse.specs.Internal.Faces.{IsNumbered, has_number, left, tris_at};
ghost use Rattle.rim_collapse.specs.Internal.Facets.{facet_of};
ghost use Rattle.rim_collapse.specs.Internal.Marks.{HasMarkedCorners, IsSetBelow, is_marked};

use crate::chains::{Chains, list_corners};
use crate::faces::{Face, has_distinct_numbers, slot_of};
use crate::facets::{Facet, list_facets};
use crate::number_sets::{NumberSet, clear, empty_set, insert_corners};
use geom_core::{Memory, Pt};
use std::alloc::Global;

/// What lies round one point. The lists are filled anew for each point, so that they take memory only once.
#[derive(Debug, Drop)]
pub(crate) struct Round {
    /// The corners of faces that are the point, by index.
    pub corners: Vec<u32>,
    /// The triangles with one of these corners.
    pub facets: Vec<Facet>,
    /// The corners of these triangles, by number.
    pub targets: NumberSet,
}

/// Returns lists of nothing, for points with numbers below `limit`.
pub(crate) fn empty_round(alloc: Global, limit: usize) -> Result<Round, Memory>
    ensures { IfOk result (λ round. IsSetBelow limit round.targets) }
{
    let targets = empty_set(alloc, limit)?;
    Ok(Round {
        corners: Vec::new(alloc),
        facets: Vec::new(alloc),
        targets,
    })
}

/// Puts the corners of the faces that are left and have one of the corners into the set, in place of its numbers.
pub(crate) fn put_round(set: &mut NumberSet, faces: &[Face], corners: &[u32]) -> Result<(), Memory>
    requires members { IsSetBelow (length set.old.marks.items) set.old }
    requires numbers { All (IsNumbered (length set.old.marks.items)) faces.now }
    requires corners { All (λ c. c / 3 < length faces.now) corners.now }
    ensures members { OnOk result (IsSetBelow (length set.old.marks.items) set.new) }
    ensures round { OnOk result (
        All (HasMarkedCorners set.new.marks.items) (faces_at faces.now corners.now)) }
    ensures only { OnOk result ((k : ℕ) → is_marked set.new.marks.items k ≡ true →
        list_any (has_number k) (faces_at faces.now corners.now) ≡ true) }
{
    clear(set);
    for corner in corners {
        let face = faces[slot_of(*corner)];
        if has_distinct_numbers(face) {
            insert_corners(set, face)?;
        }
    }
    Ok(())
}

/// Lists what lies round the point with number `n`, in place of what was listed.
pub(crate) fn list_round(
    round: &mut Round,
    points: &[Pt],
    faces: &[Face],
    chains: &Chains,
    n: u32,
) -> Result<(), Memory>
    requires members { IsSetBelow (length points.now) round.old.targets }
    requires numbers { All (IsNumbered (length points.now)) faces.now }
    requires triangles { All IsGridTriangle (tris_at points.now (left faces.now)) }
    requires chains { AreChained (length points.now) faces.now chains.now }
    requires number { n < length points.now }
    ensures members { OnOk result (IsSetBelow (length points.now) round.new.targets) }
    ensures facets { OnOk result (round.new.facets.items
        ≡ map facet_of (tris_at points.now (faces_at faces.now (chain chains.now n)))) }
    ensures round { OnOk result (
        All (HasMarkedCorners round.new.targets.marks.items) (faces_at faces.now (chain chains.now n))) }
    ensures only { OnOk result ((k : ℕ) → is_marked round.new.targets.marks.items k ≡ true →
        list_any (has_number k) (faces_at faces.now (chain chains.now n)) ≡ true) }
{
    list_corners(&mut round.corners, chains, n)?;
    list_facets(&mut round.facets, points, faces, &round.corners)?;
    put_round(&mut round.targets, faces, &round.corners)?;
    Ok(())
}
