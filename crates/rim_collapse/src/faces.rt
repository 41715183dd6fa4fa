ghost use Rattle.std.specs.Prelude.{◌≡◌, ◌≢◌, ◌≤◌, ◌<◌, ◌*◌, ◌+◌, ◌/◌, ◌==◌, ◌&&◌, not, true, ℕ, IfOk, length, map};
ghost use Rattle.std.specs.Prelude.{All, slice_index_or};
ghost use Rattle.std.specs.Prelude.{AllPairs, Contains};
ghost use Rattle.std.specs.List.{list_any};
ghost use Rattle.std.specs.declared.cmp.Ordering.TheVariants.{Less};
ghost use Rattle.geom_core.specs.declared.limits.TheConstants.{TRIANGLES_PER_GROUP};
ghost use Rattle.geom_core.specs.declared.points.Pt.{Pt};
ghost use Rattle.geom_core.specs.Corners.{IsCornerIn};
ghost use Rattle.geom_core.specs.Order.{point_cmp};
ghost use Rattle.geom_core.specs.TaggedLists.{tris_of};
ghost use Rattle.rim_collapse.specs.States.{begun};
ghost use Rattle.rim_collapse.specs.Internal.Chains.{no_face};
ghost use Rattle.rim_collapse.specs.Internal.Faces.{
  IsNumbered,
  face_to,
  has_distinct_numbers,
  has_number,
  kept_at,
  left,
  point_at,
  renumbered,
  state_of,
  tri_at,
};

use crate::points::number_of;
use crate::states::Kept;
use geom_core::{Memory, Pt, Tagged, Tri};
use std::alloc::Global;

/// A triangle that is left, by numbers: those of its corners in the ascending list of points, and that of the
/// triangle that it was.
#[derive(Clone, Copy, Debug)]
pub(crate) struct Face {
    /// The number of the first corner.
    pub a: u32,
    /// The number of the second corner.
    pub b: u32,
    /// The number of the third corner.
    pub c: u32,
    /// The index, from 0, in the list that was given.
    pub was: u32,
}

/// Returns b if the number is a, else the number.
#[tactic(auto, unfolding(crate::specs::Internal::Faces::renumbered))]
fn renumbered(n: u32, a: u32, b: u32) -> u32
    ensures { result ≡ renumbered a b n }
{
    if n == a { b } else { n }
}

/// Returns the face with b at each corner that is a.
fn face_to(face: Face, a: u32, b: u32) -> Face
    ensures { result ≡ face_to a b face }
{
    Face {
        a: renumbered(face.a, a, b),
        b: renumbered(face.b, a, b),
        c: renumbered(face.c, a, b),
        was: face.was,
    }
}

/// Whether no two corners have the same number.
#[tactic(auto, unfolding(crate::specs::Internal::Faces::has_distinct_numbers))]
pub(crate) fn has_distinct_numbers(face: Face) -> bool
    ensures { result ≡ has_distinct_numbers face }
{
    face.a != face.b && face.b != face.c && face.c != face.a
}

/// Returns the index of the face that has the corner with this index.
pub(crate) fn slot_of(corner: u32) -> usize
    ensures { result ≡ corner / 3 }
{
    (corner / 3) as usize
}

/// Whether the face is dropped where it becomes the other: it was left, and then has a number twice.
fn is_dropped(face: Face, moved: Face) -> bool
    ensures { result ≡ (has_distinct_numbers face && not (has_distinct_numbers moved)) }
{
    has_distinct_numbers(face) && !has_distinct_numbers(moved)
}

/// Does a collapse of a to b, whose corners are listed: replaces a by b in each face. Those that then have a number
/// twice are dropped by that; returns how many these are.
pub(crate) fn move_corners(faces: &mut Vec<Face>, corners: &[u32], a: u32, b: u32) -> usize
    requires apart { a ≢ b }
    requires corners { All (λ c. c / 3 < length faces.old.items) corners.now }
    requires all { (k : ℕ) → k < length faces.old.items →
        has_number a (slice_index_or faces.old.items k no_face) ≡ true →
        list_any (λ c. c / 3 == k) corners.now ≡ true }
    ensures faces { faces.new.items ≡ map (face_to a b) faces.old.items }
    ensures count { result + length (left faces.new.items) ≡ length (left faces.old.items) }
{
    let mut dropped = 0;
    for corner in corners {
        let face = faces[slot_of(*corner)];
        let moved = face_to(face, a, b);
        if is_dropped(face, moved) {
            dropped += 1;
        }
        faces[slot_of(*corner)] = moved;
    }
    dropped
}

/// Returns the point with this number.
#[tactic(auto, unfolding(crate::specs::Internal::Faces::point_at))]
pub(crate) fn point_at(points: &[Pt], n: u32) -> Pt
    requires number { n < length points.now }
    ensures { result ≡ point_at points.now n }
{
    points[n as usize]
}

/// Returns the triangle of the face.
pub(crate) fn tri_at(points: &[Pt], face: Face) -> Tri
    requires numbers { IsNumbered (length points.now) face }
    ensures { result ≡ tri_at points.now face }
{
    Tri {
        a: point_at(points, face.a),
        b: point_at(points, face.b),
        c: point_at(points, face.c),
    }
}

/// Returns the face of a triangle.
fn face_of(points: &[Pt], tri: Tri, was: u32) -> Face
    requires point_limit { length points.now ≤ 3 * TRIANGLES_PER_GROUP }
    requires ascending { AllPairs (λ p q. point_cmp p q ≡ Less) points.now }
    requires a { Contains points.now tri.a }
    requires b { Contains points.now tri.b }
    requires c { Contains points.now tri.c }
    ensures numbers { IsNumbered (length points.now) result }
    ensures triangle { tri_at points.now result ≡ tri }
    ensures was { result.was ≡ was }
{
    Face {
        a: number_of(points, tri.a),
        b: number_of(points, tri.b),
        c: number_of(points, tri.c),
        was,
    }
}

/// Returns the faces of the triangles, in order.
pub(crate) fn faces_of(alloc: Global, points: &[Pt], tris: &[Tagged]) -> Result<Vec<Face>, Memory>
    requires triangle_limit { length tris.now ≤ TRIANGLES_PER_GROUP }
    requires point_limit { length points.now ≤ 3 * TRIANGLES_PER_GROUP }
    requires ascending { AllPairs (λ p q. point_cmp p q ≡ Less) points.now }
    requires corners { (p : Pt) → IsCornerIn (tris_of tris.now) p → Contains points.now p }
    ensures numbers { IfOk result (λ faces. All (IsNumbered (length points.now)) faces.items) }
    ensures was { IfOk result (λ faces. All (λ f. f.was < length tris.now) faces.items) }
    ensures triangles { IfOk result (λ faces.
        state_of tris.now points.now faces.items ≡ begun tris.now) }
{
    let mut faces = Vec::with_capacity(alloc, tris.len())?;
    for i in 0..tris.len() {
        faces.push(face_of(points, tris[i].tri, i as u32))?;
    }
    Ok(faces)
}

/// Returns the triangle of the face, beside the one that it was.
#[tactic(auto, unfolding(crate::specs::Internal::Faces::tagged_at))]
fn kept_at(tris: &[Tagged], points: &[Pt], face: Face) -> Kept
    requires numbers { IsNumbered (length points.now) face }
    requires was { face.was < length tris.now }
    ensures { result ≡ kept_at tris.now points.now face }
{
    Kept {
        tri: tri_at(points, face),
        was: tris[face.was as usize],
    }
}

/// Returns the triangles of the faces that are left, in order, each beside the one that it was.
pub(crate) fn kept_of(
    alloc: Global,
    tris: &[Tagged],
    points: &[Pt],
    faces: &[Face],
) -> Result<Vec<Kept>, Memory>
    requires numbers { All (IsNumbered (length points.now)) faces.now }
    requires was { All (λ f. f.was < length tris.now) faces.now }
    ensures { IfOk result (λ kept. kept.items ≡ state_of tris.now points.now (left faces.now)) }
{
    let mut kept = Vec::new(alloc);
    for face in faces {
        if has_distinct_numbers(*face) {
            kept.push(kept_at(tris, points, *face))?;
        }
    }
    Ok(kept)
}
