ghost use Rattle.std.specs.Prelude.{◌≡◌, ◌≤◌, unsigned_abs};
ghost use Rattle.geom_core.specs.Limits.{IsScreenCoordinate};
ghost use Rattle.geom_core.specs.Winding.{edge_function, passes, crossing};
ghost use Rattle.raster64.specs.Internal.Numerators.{IsWithin};

use crate::wide::Wide;
use geom_core::Spot;

/// The edge function of the line from `s` to `t` (Pineda 1988).
pub(crate) fn edge_function<W: Wide>(s: Spot, t: Spot, x: i64, y: i64) -> W
    requires from { IsWithin W.reach s }
    requires to { IsWithin W.reach t }
    requires point_x { unsigned_abs x ≤ W.reach }
    requires point_y { unsigned_abs y ≤ W.reach }
    ensures { W.int result ≡ edge_function s t x y }
{
    let along = W::difference(t.x, s.x).times(W::difference(y, s.y));
    let across = W::difference(t.y, s.y).times(W::difference(x, s.x));
    along.minus(across)
}

/// Whether the edge, seen from `lo` to `hi`, spans the height `y` and passes on the greater-x side.
#[tactic(auto, unfolding(geom_core::specs::Winding::passes))]
fn passes_right_of(lo: Spot, hi: Spot, x: i64, y: i64) -> bool
    requires from { IsScreenCoordinate lo.x × IsScreenCoordinate lo.y }
    requires to { IsScreenCoordinate hi.x × IsScreenCoordinate hi.y }
    requires point_x { IsScreenCoordinate x }
    requires point_y { IsScreenCoordinate y }
    ensures { result ≡ passes lo hi x y }
{
    lo.y <= y && y < hi.y && edge_function::<i128>(lo, hi, x, y) > 0
}

/// The crossing of the edge from `s` to `t` about the point (`x`, `y`), all in sixteenths of a pixel: 1
/// where it passes the point on its greater-x side towards greater y, -1 towards lesser y, and else 0.
///
/// An edge spans the heights from its lesser y on, without its greater y itself.
#[tactic(auto, unfolding(geom_core::specs::Winding::crossing))]
pub fn crossing(s: Spot, t: Spot, x: i64, y: i64) -> i32
    requires from { IsScreenCoordinate s.x × IsScreenCoordinate s.y }
    requires to { IsScreenCoordinate t.x × IsScreenCoordinate t.y }
    requires point_x { IsScreenCoordinate x }
    requires point_y { IsScreenCoordinate y }
    ensures crossing { result ≡ crossing s t x y }
    ensures unit { unsigned_abs result ≤ 1 }
{
    if passes_right_of(s, t, x, y) {
        1
    } else if passes_right_of(t, s, x, y) {
        -1
    } else {
        0
    }
}
