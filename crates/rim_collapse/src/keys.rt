ghost use Rattle.std.specs.Prelude.{◌≡◌};
ghost use Rattle.rim_collapse.specs.declared.keys.Key.{Key};
ghost use Rattle.rim_collapse.specs.Cost.{key_cmp};

use geom_core::Pt;

/// A collapse, and what decides which of two is first: the one with the lesser cost, then the shorter one, then
/// the one of the lesser point, then the one with the lesser target.
#[derive(Clone, Copy, Debug, PartialEq, Eq, PartialOrd, Ord)]
pub(crate) struct Key {
    /// The sum, over the triangles round `from`, of twice their area times the distance of `to` from their plane.
    pub cost: u128,
    /// The Chebyshev distance of the two points, in grid steps.
    pub distance: u32,
    /// The point that moves.
    pub from: Pt,
    /// Its target.
    pub to: Pt,
}

/// Law: keys compare by cost, then distance, then the two points.
pub(crate) fn keys_are_ordered()
    ensures { (k l : Key) → ⟦<Key as Ord>⟧.cmp k l ≡ key_cmp k l }
{}
