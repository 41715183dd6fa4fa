ghost use Rattle.geom_core.specs.Limits.{AreGridTriangles};

use crate::first_level::{FirstLevel, cut_level, gathered, rim_of};
use geom_core::{Memory, Tri};
use rim_collapse::{Simplified, simplify};
use std::alloc::Global;
use std::collections::BTreeSet;

/// What the simplification of a level's groups left.
#[derive(Clone, Copy, Debug, PartialEq, Eq)]
pub struct Left {
    /// The triangles of all groups.
    pub tris: usize,
    /// How far corners of each group moved at most, added up, in grid steps.
    pub moved: u64,
}

/// Cuts a mesh into clusters and groups, and simplifies each group once, with the points of its rim locked.
pub fn simplify_groups(alloc: Global, tris: &[Tri]) -> Result<Left, Memory>
    requires mesh { AreGridTriangles tris.now }
{
    let level = cut_level(alloc, tris)?;
    let mut left = Left { tris: 0, moved: 0 };
    for group in &level.groups {
        let numbers = numbers_of(alloc, &level, group.as_slice())?;
        let simplified = simplify_group(alloc, tris, &numbers)?;
        left.tris = left.tris.saturating_add(simplified.tris.as_slice().len());
        left.moved = left.moved.saturating_add(u64::from(simplified.moved));
    }
    Ok(left)
}

/// Returns the numbers of a group's triangles, one cluster after the other.
fn numbers_of(alloc: Global, level: &FirstLevel, group: &[u32]) -> Result<Vec<u32>, Memory> {
    let mut numbers = Vec::new(alloc);
    for cluster in group {
        if let Some(members) = level.clusters.get(*cluster as usize) {
            numbers.extend_from_slice(members.as_slice())?;
        }
    }
    Ok(numbers)
}

/// Simplifies the triangles of these numbers, with the points of their rim locked.
fn simplify_group(alloc: Global, tris: &[Tri], numbers: &[u32]) -> Result<Simplified, Memory> {
    let group = gathered(alloc, tris, numbers)?;
    let rim = rim_of(alloc, &group)?;
    let points = rim.points(alloc)?;
    let locked = BTreeSet::from_iter(alloc, points)?;
    simplify(alloc, group, &locked)
}
