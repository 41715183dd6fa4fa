ghost use Rattle.std.specs.Prelude.{◌≡◌, ◌<◌, ◌++◌, ◌∷◌, [], OnOk, length};
ghost use Rattle.half_mesh.specs.declared.cancelling.TheConstants.{SLOTS};
ghost use Rattle.half_mesh.specs.Terms.{AddUpAlike, AreSmall};

use crate::edges::Edge;
use crate::terms::{CANCELLED, EdgeTerm, push_sum};
use geom_core::limits::TRIANGLES_PER_CLUSTER;
use geom_core::{Memory, Pt};

/// The slots of a table in which edges cancel: four a triangle of a cluster, whose triangles have three edges each.
pub(crate) const SLOTS: usize = 4 * TRIANGLES_PER_CLUSTER as usize;

/// What an empty slot holds: nothing, of any edge.
pub(crate) const EMPTY: EdgeTerm = EdgeTerm {
    edge: Edge {
        u: Pt { x: 0, y: 0, z: 0 },
        v: Pt { x: 0, y: 0, z: 0 },
    },
    sum: CANCELLED,
};

/// Odd multipliers, one a coordinate (multiplicative hashing: Knuth, The Art of Computer Programming, 6.4).
const SPREAD_X: u32 = 0x9e37_79b1;

const SPREAD_Y: u32 = 0x85eb_ca77;

const SPREAD_Z: u32 = 0xc2b2_ae3d;

const SPREAD: u32 = 0x27d4_eb2f;

/// Returns a hash of the point.
fn hash_of(p: Pt) -> u32 {
    p.x.unsigned_abs()
        .wrapping_mul(SPREAD_X)
        .wrapping_add(p.y.unsigned_abs().wrapping_mul(SPREAD_Y))
        .wrapping_add(p.z.unsigned_abs().wrapping_mul(SPREAD_Z))
}

/// Returns the slot of the edge, by a hash of its points.
fn slot_of(edge: Edge) -> usize
    ensures range { result < SLOTS }
{
    let hash = (hash_of(edge.u) ^ (hash_of(edge.v) >> 7)).wrapping_mul(SPREAD);
    (hash >> 16) as usize % SLOTS
}

/// Adds a term to that of its edge in its slot. If the slot holds another edge, the term takes its place, and what
/// was held is appended to `left`.
fn put_term(slots: &mut [EdgeTerm], left: &mut Vec<EdgeTerm>, term: EdgeTerm) -> Result<(), Memory>
    requires slots { length slots.old ≡ SLOTS }
    requires small { AreSmall slots.old }
    requires small_left { AreSmall left.old.items }
    ensures slots { length slots.new ≡ SLOTS }
    ensures small { OnOk result (AreSmall slots.new) }
    ensures small_left { OnOk result (AreSmall left.new.items) }
    ensures sums { OnOk result (AddUpAlike (left.new.items ++ slots.new)
        ((left.old.items ++ slots.old) ++ term ∷ [])) }
{
    let slot = slot_of(term.edge);
    let held = slots[slot];
    if held.edge == term.edge {
        slots[slot].sum = held.sum.wrapping_add(term.sum);
    } else {
        push_sum(left, held)?;
        slots[slot] = term;
    }
    Ok(())
}

/// Adds these terms to those of their edges in the table, and appends to `left` those that lose their slots.
pub(crate) fn put_terms(
    slots: &mut [EdgeTerm],
    left: &mut Vec<EdgeTerm>,
    terms: &[EdgeTerm],
) -> Result<(), Memory>
    requires slots { length slots.old ≡ SLOTS }
    requires small { AreSmall slots.old }
    requires small_left { AreSmall left.old.items }
    requires small_terms { AreSmall terms.now }
    ensures slots { length slots.new ≡ SLOTS }
    ensures small { OnOk result (AreSmall slots.new) }
    ensures small_left { OnOk result (AreSmall left.new.items) }
    ensures sums { OnOk result (AddUpAlike (left.new.items ++ slots.new)
        ((left.old.items ++ slots.old) ++ terms.now)) }
{
    'terms: for term in terms {
        put_term(slots, left, *term)?;
    }
    Ok(())
}

/// Appends what the slots hold.
pub(crate) fn push_held(left: &mut Vec<EdgeTerm>, slots: &[EdgeTerm]) -> Result<(), Memory>
    requires small { AreSmall slots.now }
    requires small_left { AreSmall left.old.items }
    ensures small_left { OnOk result (AreSmall left.new.items) }
    ensures sums { OnOk result (AddUpAlike left.new.items (left.old.items ++ slots.now)) }
{
    'slots: for held in slots {
        push_sum(left, *held)?;
    }
    Ok(())
}
