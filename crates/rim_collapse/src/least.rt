ghost use Rattle.std.specs.Prelude.{◌≡◌, ◌≤◌, ◌<◌, ◌||◌, Bool, false, true, length, All};
ghost use Rattle.std.specs.List.{list_any};
ghost use Rattle.geom_core.specs.declared.limits.TheConstants.{TRIANGLES_PER_GROUP};
ghost use Rattle.geom_core.specs.declared.points.Pt.{Pt};
ghost use Rattle.geom_core.specs.Corners.{has_corner};
ghost use Rattle.geom_core.specs.EdgeSum.{same_point};
ghost use Rattle.rim_collapse.specs.declared.facets.TheConstants.{COST_MAX};
ghost use Rattle.rim_collapse.specs.declared.keys.Key.{Key};
ghost use Rattle.rim_collapse.specs.Internal.Bests.{IsBestOf, beats};
ghost use Rattle.rim_collapse.specs.Internal.Faces.{point_at};
ghost use Rattle.rim_collapse.specs.Internal.Facets.{IsFacet, tris_in};

use crate::corners::is_same;
use crate::faces::point_at;
use crate::facets::{COST_MAX, Facet, cost_within, is_legal};
use crate::keys::Key;
use crate::vectors::minus;
use geom_core::{Pt, cheb};

/// Whether the collapse sorts before the best so far, or is the first one.
fn beats(key: &Key, best: &Option<Key>) -> bool
    ensures { result ≡ beats key.now best.now }
{
    match best {
        None => true,
        Some(best) => key.cmp(best).is_lt(),
    }
}

/// Returns the cost above which no collapse sorts before the best so far.
fn cost_limit(best: &Option<Key>) -> u128
    ensures { (key : Key) → result < key.cost → result < COST_MAX → beats key best.now ≡ false }
{
    match best {
        None => COST_MAX,
        Some(best) => best.cost,
    }
}

/// Puts the collapse of `a` to `b` in place of the best so far if it is legal and sorts before it.
fn improve(facets: &[Facet], a: Pt, b: Pt, best: &mut Option<Key>)
    requires facet_limit { length facets.now ≤ TRIANGLES_PER_GROUP }
    requires facets { All (IsFacet a) facets.now }
    requires corner { list_any (λ f. has_corner b f.tri) facets.now ≡ true }
    ensures { (tried : Pt → Bool) → IsBestOf (tris_in facets.now) a tried best.old →
        IsBestOf (tris_in facets.now) a (λ q. tried q || same_point b q) best.new }
{
    if is_same(a, b) {
        return;
    }
    let Some(cost) = cost_within(facets, minus(b, a), cost_limit(best)) else {
        return;
    };
    let key = Key {
        cost,
        distance: cheb(a, b),
        from: a,
        to: b,
    };
    if beats(&key, best) && is_legal(facets, a, b) {
        *best = Some(key);
    }
}

/// Returns the least legal collapse of `a` to one of the targets, or `None`. Each is a corner of a facet round `a`.
pub(crate) fn least_of(facets: &[Facet], points: &[Pt], targets: &[u32], a: Pt) -> Option<Key>
    requires facet_limit { length facets.now ≤ TRIANGLES_PER_GROUP }
    requires facets { All (IsFacet a) facets.now }
    requires numbers { All (λ n. n < length points.now) targets.now }
    requires targets { All (λ n.
        list_any (λ f. has_corner (point_at points.now n) f.tri) facets.now ≡ true) targets.now }
    ensures { IsBestOf (tris_in facets.now) a
        (λ q. list_any (λ n. same_point (point_at points.now n) q) targets.now) result }
{
    let mut best = None;
    for target in targets {
        improve(facets, a, point_at(points, *target), &mut best);
    }
    best
}
