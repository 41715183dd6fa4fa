ghost use Rattle.std.specs.Prelude.{◌≡◌, IfOk, map};
ghost use Rattle.rim_collapse.specs.Moved.{moved_of, shift};
ghost use Rattle.rim_collapse.specs.States.{tagged_of};

use geom_core::{Memory, Tagged, Tri, cheb};
use std::alloc::Global;

/// A triangle that is left, beside the one that it was.
#[derive(Clone, Copy, Debug, PartialEq, Eq)]
pub struct Kept {
    /// The triangle as it is.
    pub tri: Tri,
    /// The triangle of the list that was given.
    pub was: Tagged,
}

/// Returns how far the triangle's corners are from where they were, in grid steps.
#[tactic(auto, unfolding(geom_core::specs::Shift::shift_of))]
fn shift(kept: Kept) -> u32
    ensures { result ≡ shift kept }
{
    let beside = cheb(kept.tri.b, kept.was.tri.b).max(cheb(kept.tri.c, kept.was.tri.c));
    cheb(kept.tri.a, kept.was.tri.a).max(beside)
}

/// Returns the greatest distance of a corner from its old place, in grid steps, or 0 if no triangle is left.
pub(crate) fn moved(kept: &[Kept]) -> u32
    ensures { result ≡ moved_of kept.now }
{
    let mut moved = 0u32;
    for left in kept {
        moved = moved.max(shift(*left));
    }
    moved
}

/// Returns the triangles that are left, with their sources.
pub(crate) fn tagged(alloc: Global, kept: &[Kept]) -> Result<Vec<Tagged>, Memory>
    ensures { IfOk result (λ tris. tris.items ≡ map tagged_of kept.now) }
{
    let mut tris = Vec::with_capacity(alloc, kept.len())?;
    for left in kept {
        tris.push(Tagged {
            tri: left.tri,
            source: left.was.source,
        })?;
    }
    Ok(tris)
}
