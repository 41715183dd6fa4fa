ghost use Rattle.std.specs.Prelude.{◌≡◌};
ghost use Rattle.geom_core.specs.Collapses.{replaced, replaced_point};
ghost use Rattle.geom_core.specs.EdgeSum.{same_point};

use geom_core::{Pt, Tri};

/// Whether both are one point.
pub(crate) fn is_same(p: Pt, q: Pt) -> bool
    ensures { result ≡ same_point p q }
{
    p == q
}

/// Returns b if the point is a, else the point.
#[tactic(auto, unfolding(geom_core::specs::Collapses::replaced_point))]
fn replaced_point(p: Pt, a: Pt, b: Pt) -> Pt
    ensures { result ≡ replaced_point a b p }
{
    if is_same(p, a) { b } else { p }
}

/// Returns the triangle with b at each corner that is a.
#[tactic(auto, unfolding(geom_core::specs::Collapses::replaced))]
pub(crate) fn replaced(tri: Tri, a: Pt, b: Pt) -> Tri
    ensures { result ≡ replaced a b tri }
{
    Tri {
        a: replaced_point(tri.a, a, b),
        b: replaced_point(tri.b, a, b),
        c: replaced_point(tri.c, a, b),
    }
}
