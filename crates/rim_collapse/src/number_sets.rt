ghost use Rattle.std.specs.Prelude.{◌≡◌, ◌<◌, [], true, false, ℕ, IfOk, OnOk, length};
ghost use Rattle.rim_collapse.specs.Internal.Faces.{IsNumbered, has_number};
ghost use Rattle.rim_collapse.specs.Internal.Marks.{HasMarkedCorners, IsSetBelow, is_marked};

use crate::faces::Face;
use geom_core::Memory;
use std::alloc::Global;

/// A set of numbers of points, which is cleared in time in proportion to its members.
#[derive(Debug, Drop)]
pub(crate) struct NumberSet {
    /// Whether a number is in the set, by number.
    pub marks: Vec<bool>,
    /// The numbers in the set, each once.
    pub members: Vec<u32>,
}

/// Returns an empty set of numbers below `limit`.
pub(crate) fn empty_set(alloc: Global, limit: usize) -> Result<NumberSet, Memory>
    ensures { IfOk result (IsSetBelow limit) }
{
    let marks = vec![in alloc; false; limit]?;
    Ok(NumberSet {
        marks,
        members: Vec::new(alloc),
    })
}

/// Removes all numbers.
pub(crate) fn clear(set: &mut NumberSet)
    requires members { IsSetBelow (length set.old.marks.items) set.old }
    ensures limit { length set.new.marks.items ≡ length set.old.marks.items }
    ensures members { set.new.members.items ≡ [] }
    ensures marks { (k : ℕ) → is_marked set.new.marks.items k ≡ false }
{
    for i in 0..set.members.len() {
        let n = set.members[i];
        set.marks[n as usize] = false;
    }
    set.members.clear();
}

/// Puts the number into the set.
fn insert(set: &mut NumberSet, n: u32) -> Result<(), Memory>
    requires number { n < length set.old.marks.items }
    requires members { IsSetBelow (length set.old.marks.items) set.old }
    ensures members { OnOk result (IsSetBelow (length set.old.marks.items) set.new) }
    ensures number { OnOk result (is_marked set.new.marks.items n ≡ true) }
    ensures more { OnOk result ((k : ℕ) → is_marked set.old.marks.items k ≡ true →
        is_marked set.new.marks.items k ≡ true) }
    ensures only { OnOk result ((k : ℕ) → is_marked set.new.marks.items k ≡ true →
        is_marked set.old.marks.items k ≡ false → k ≡ n) }
{
    if !set.marks[n as usize] {
        set.members.push(n)?;
        set.marks[n as usize] = true;
    }
    Ok(())
}

/// Puts the numbers of the face's corners into the set.
#[tactic(auto, unfolding(crate::specs::Internal::Faces::has_number))]
pub(crate) fn insert_corners(set: &mut NumberSet, face: Face) -> Result<(), Memory>
    requires numbers { IsNumbered (length set.old.marks.items) face }
    requires members { IsSetBelow (length set.old.marks.items) set.old }
    ensures members { OnOk result (IsSetBelow (length set.old.marks.items) set.new) }
    ensures corners { OnOk result (HasMarkedCorners set.new.marks.items face) }
    ensures more { OnOk result ((k : ℕ) → is_marked set.old.marks.items k ≡ true →
        is_marked set.new.marks.items k ≡ true) }
    ensures only { OnOk result ((k : ℕ) → is_marked set.new.marks.items k ≡ true →
        is_marked set.old.marks.items k ≡ false → has_number k face ≡ true) }
{
    insert(set, face.a)?;
    insert(set, face.b)?;
    insert(set, face.c)?;
    Ok(())
}
