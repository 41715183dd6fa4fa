ghost use Rattle.std.specs.Prelude.{◌≡◌, ◌≤◌, ◌<◌, ◌*◌, ◌+◌, ◌^◌, IfOk, OnOk, length, All, slice_index_or, slice_set};
ghost use Rattle.geom_core.specs.declared.limits.TheConstants.{TRIANGLES_PER_GROUP};
ghost use Rattle.rim_collapse.specs.Internal.Chains.{AreChained, chain, numbers_in};
ghost use Rattle.rim_collapse.specs.Internal.Faces.{IsNumbered};

use crate::faces::Face;
use geom_core::Memory;
use std::alloc::Global;

/// The corners of faces, linked for each point. Corner k of face j, both from 0, has the index 3 j + k.
#[derive(Debug, Drop)]
pub(crate) struct Chains {
    /// The first corner of each point, by the point's number.
    pub firsts: Vec<u32>,
    /// How many corners each point has, by the point's number.
    pub counts: Vec<u32>,
    /// The next corner of the same point, by the corner's index.
    pub nexts: Vec<u32>,
}

/// Returns the numbers of the faces' corners, by the corner's index.
fn numbers_of(alloc: Global, faces: &[Face]) -> Result<Vec<u32>, Memory>
    ensures { IfOk result (λ numbers. numbers.items ≡ numbers_in faces.now) }
{
    let mut numbers = Vec::with_capacity(alloc, 3 * faces.len())?;
    for face in faces {
        numbers.push(face.a)?;
        numbers.push(face.b)?;
        numbers.push(face.c)?;
    }
    Ok(numbers)
}

/// Puts the corner before the others of point `n`.
fn link(chains: &mut Chains, corner: usize, n: u32)
    requires corner { corner < length chains.old.nexts.items }
    requires corner_limit { length chains.old.nexts.items ≤ 3 * TRIANGLES_PER_GROUP }
    requires number { n < length chains.old.firsts.items }
    requires counts { length chains.old.counts.items ≡ length chains.old.firsts.items }
    requires count { slice_index_or chains.old.counts.items n 0 ≤ corner }
    ensures firsts { chains.new.firsts.items ≡ slice_set chains.old.firsts.items n corner }
    ensures counts { chains.new.counts.items
        ≡ slice_set chains.old.counts.items n (slice_index_or chains.old.counts.items n 0 + 1) }
    ensures nexts { chains.new.nexts.items
        ≡ slice_set chains.old.nexts.items corner (slice_index_or chains.old.firsts.items n 0) }
{
    chains.nexts[corner] = chains.firsts[n as usize];
    chains.firsts[n as usize] = corner as u32;
    chains.counts[n as usize] += 1;
}

/// Returns the corners of each of `count` points.
pub(crate) fn chains_of(alloc: Global, faces: &[Face], count: usize) -> Result<Chains, Memory>
    requires triangle_limit { length faces.now ≤ TRIANGLES_PER_GROUP }
    requires numbers { All (IsNumbered count) faces.now }
    ensures { IfOk result (AreChained count faces.now) }
{
    let numbers = numbers_of(alloc, faces)?;
    let mut chains = Chains {
        firsts: vec![in alloc; 0u32; count]?,
        counts: vec![in alloc; 0u32; count]?,
        nexts: vec![in alloc; 0u32; numbers.len()]?,
    };
    for corner in 0..numbers.len() {
        link(&mut chains, corner, numbers[corner]);
    }
    Ok(chains)
}

/// Lists the corners of point `n`, in place of what was listed.
pub(crate) fn list_corners(corners: &mut Vec<u32>, chains: &Chains, n: u32) -> Result<(), Memory>
    requires number { n < length chains.now.firsts.items }
    requires counts { length chains.now.counts.items ≡ length chains.now.firsts.items }
    requires corners { All (λ c. c < length chains.now.nexts.items) (chain chains.now n) }
    ensures { OnOk result (corners.new.items ≡ chain chains.now n) }
{
    corners.clear();
    let mut corner = chains.firsts[n as usize];
    for _i in 0..chains.counts[n as usize] {
        corners.push(corner)?;
        corner = chains.nexts[corner as usize];
    }
    Ok(())
}

/// Puts the corners of point `a`, the last of which is given, before those of point `b`.
pub(crate) fn join(chains: &mut Chains, a: u32, b: u32, last: u32)
    requires a { a < length chains.old.firsts.items }
    requires b { b < length chains.old.firsts.items }
    requires last { last < length chains.old.nexts.items }
    requires counts { length chains.old.counts.items ≡ length chains.old.firsts.items }
    requires count { slice_index_or chains.old.counts.items a 0
        + slice_index_or chains.old.counts.items b 0 < 2 ^ 32 }
    ensures firsts { chains.new.firsts.items
        ≡ slice_set chains.old.firsts.items b (slice_index_or chains.old.firsts.items a 0) }
    ensures counts { chains.new.counts.items
        ≡ slice_set (slice_set chains.old.counts.items b
        (slice_index_or chains.old.counts.items b 0 + slice_index_or chains.old.counts.items a 0)) a 0 }
    ensures nexts { chains.new.nexts.items
        ≡ slice_set chains.old.nexts.items last (slice_index_or chains.old.firsts.items b 0) }
{
    chains.nexts[last as usize] = chains.firsts[b as usize];
    chains.firsts[b as usize] = chains.firsts[a as usize];
    chains.counts[b as usize] += chains.counts[a as usize];
    chains.counts[a as usize] = 0;
}
