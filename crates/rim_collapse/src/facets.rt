ghost use Rattle.std.specs.Prelude.{◌≡◌, ◌≤◌, ◌<◌, ◌/◌, IfSome, IsTrue, None, OnOk, length, map, sum_by, All};
ghost use Rattle.std.specs.List.{list_all};
ghost use Rattle.geom_core.specs.declared.limits.TheConstants.{TRIANGLES_PER_GROUP};
ghost use Rattle.geom_core.specs.Limits.{HasGridCorners, IsGridPoint, IsGridTriangle};
ghost use Rattle.rim_collapse.specs.Internal.Chains.{face_at, faces_at};
ghost use Rattle.rim_collapse.specs.Internal.Faces.{IsNumbered, left, tris_at};
ghost use Rattle.rim_collapse.specs.Internal.Facets.{IsFacet, facet_cost, facet_keeps, facet_of};
ghost use Rattle.rim_collapse.specs.Internal.Sizes.{IsWithin};
ghost use Rattle.rim_collapse.specs.Legal.{keeps_facing};
ghost use Rattle.rim_collapse.specs.declared.facets.TheConstants.{COST_MAX};
ghost use Rattle.rim_collapse.specs.declared.vectors.TheConstants.{NORMAL_LIMIT};

use crate::corners::replaced;
use crate::faces::{Face, has_distinct_numbers, slot_of, tri_at};
use crate::vectors::{Vector, dot, normal};
use geom_core::{Memory, Pt, Tri};

/// More than any collapse costs.
pub(crate) const COST_MAX: u128 = u128::MAX;

/// A triangle round the point that may move, with its normal.
#[derive(Clone, Copy, Debug)]
pub(crate) struct Facet {
    /// The triangle.
    pub tri: Tri,
    /// Its normal.
    pub normal: Vector,
}

/// Returns the triangle with its normal.
fn facet_of(tri: Tri) -> Facet
    requires { HasGridCorners tri }
    ensures { result ≡ facet_of tri }
{
    Facet {
        tri,
        normal: normal(tri),
    }
}

/// Lists the triangles of the faces that are left and have one of the corners, with their normals, in place of what
/// was listed.
pub(crate) fn list_facets(
    facets: &mut Vec<Facet>,
    points: &[Pt],
    faces: &[Face],
    corners: &[u32],
) -> Result<(), Memory>
    requires numbers { All (IsNumbered (length points.now)) faces.now }
    requires triangles { All IsGridTriangle (tris_at points.now (left faces.now)) }
    requires corners { All (λ c. c / 3 < length faces.now) corners.now }
    ensures { OnOk result (facets.new.items ≡ map facet_of
        (tris_at points.now (faces_at faces.now corners.now))) }
{
    facets.clear();
    for corner in corners {
        let face = faces[slot_of(*corner)];
        if has_distinct_numbers(face) {
            facets.push(facet_of(tri_at(points, face)))?;
        }
    }
    Ok(())
}

/// Returns the cost of moving the facets' common corner by this offset, or `None` if it is above `most`.
pub(crate) fn cost_within(facets: &[Facet], offset: Vector, most: u128) -> Option<u128>
    requires facet_limit { length facets.now ≤ TRIANGLES_PER_GROUP }
    requires facets { All (λ f. IsWithin NORMAL_LIMIT f.normal) facets.now }
    requires offset { IsWithin NORMAL_LIMIT offset }
    ensures cost { IfSome result (λ cost. cost ≡ sum_by (facet_cost offset) facets.now) }
    ensures above { result ≡ None → (most < sum_by (facet_cost offset) facets.now) × (most < COST_MAX) }
{
    let mut total = 0u128;
    'facets: for facet in facets {
        total += dot(facet.normal, offset).unsigned_abs();
        if total > most {
            return None;
        }
    }
    Some(total)
}

/// Whether the facet doesn't turn over where b replaces its corner a.
pub(crate) fn keeps_facing(facet: Facet, a: Pt, b: Pt) -> bool
    requires facet { IsFacet a facet }
    requires target { IsGridPoint b }
    ensures { result ≡ keeps_facing a b facet.tri }
{
    let moved = replaced(facet.tri, a, b);
    !moved.has_distinct_corners() || dot(normal(moved), facet.normal) >= 0
}

/// Whether none of the facets turns over where b replaces their common corner a.
pub(crate) fn is_legal(facets: &[Facet], a: Pt, b: Pt) -> bool
    requires facets { All (IsFacet a) facets.now }
    requires target { IsGridPoint b }
    ensures { result ≡ list_all (facet_keeps a b) facets.now }
{
    for facet in facets {
        if !keeps_facing(*facet, a, b) {
            return false;
        }
    }
    true
}
