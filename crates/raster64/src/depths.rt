ghost use Rattle.std.specs.Prelude.{◌≡◌, ◌≤◌, ◌<◌, ◌+◌, ◌*◌, ℤ, pos, ◌+ℤ◌, ◌*ℤ◌, ◌<ℤ◌, ◌≤ℤ◌, unsigned_abs};
ghost use Rattle.geom_core.specs.Limits.{IsDepth};
ghost use Rattle.geom_core.specs.Winding.{edge_function};
ghost use Rattle.geom_core.specs.Depth.{weighted};
ghost use Rattle.geom_core.specs.declared.limits.TheConstants.{MAX_DEPTH};
ghost use Rattle.raster64.specs.Internal.Numerators.{IsWithin, by_depths, growth, IsDivided, IsDepthPlane};

use crate::edges::edge_function;
use crate::wide::Wide;
use geom_core::Spot;
use geom_core::limits::SUBPIXELS;

/// A number divided by a triangle's divisor, rounded down, and the remainder.
#[derive(Clone, Copy)]
pub(crate) struct Quotient<W> {
    /// The whole quotient.
    pub whole: W,
    /// What is left, from 0 on and below the divisor.
    pub rest: W,
}

/// What the depths of a triangle have in common.
#[derive(Clone, Copy)]
pub(crate) struct DepthPlane<W> {
    /// The divisor of each depth: twice the triangle's area.
    pub divisor: W,
    /// How much the depth grows from one column to the next.
    pub step: Quotient<W>,
}

/// Divides, rounding down.
fn divide<W: Wide>(n: W, divisor: W) -> Quotient<W>
    requires positive { pos 0 <ℤ W.int divisor }
    requires size { unsigned_abs (W.int n) + unsigned_abs (W.int divisor) ≤ W.most }
    ensures { IsDivided (W.int n) (W.int divisor) (W.int result.whole) (W.int result.rest) }
{
    let whole = n.quotient(divisor);
    Quotient {
        whole,
        rest: n.minus(whole.times(divisor)),
    }
}

/// The quotient of the sum of two numbers of which the quotients are known.
pub(crate) fn add<W: Wide>(p: Quotient<W>, q: Quotient<W>, divisor: W) -> Quotient<W>
    requires p { (pos 0 ≤ℤ W.int p.rest) × (W.int p.rest <ℤ W.int divisor) }
    requires q { (pos 0 ≤ℤ W.int q.rest) × (W.int q.rest <ℤ W.int divisor) }
    requires wholes { unsigned_abs (W.int p.whole +ℤ W.int q.whole) < W.most }
    requires rests { 2 * unsigned_abs (W.int divisor) ≤ W.most }
    ensures { (n m : ℤ) → IsDivided n (W.int divisor) (W.int p.whole) (W.int p.rest)
        → IsDivided m (W.int divisor) (W.int q.whole) (W.int q.rest)
        → IsDivided (n +ℤ m) (W.int divisor) (W.int result.whole) (W.int result.rest) }
{
    let whole = p.whole.plus(q.whole);
    let rest = p.rest.plus(q.rest);
    if rest.is_at_least(divisor) {
        Quotient {
            whole: whole.plus(W::from_u32(1)),
            rest: rest.minus(divisor),
        }
    } else {
        Quotient { whole, rest }
    }
}

/// The sum of three numbers, each multiplied by a corner's depth.
fn by_depths<W: Wide>(a: Spot, b: Spot, c: Spot, p: W, q: W, r: W) -> W
    requires depths { IsDepth a.z × IsDepth b.z × IsDepth c.z }
    requires p { 3 * (unsigned_abs (W.int p) * MAX_DEPTH) ≤ W.most }
    requires q { 3 * (unsigned_abs (W.int q) * MAX_DEPTH) ≤ W.most }
    requires r { 3 * (unsigned_abs (W.int r) * MAX_DEPTH) ≤ W.most }
    ensures { W.int result ≡ by_depths a b c (W.int p) (W.int q) (W.int r) }
{
    p.times(W::from_u32(a.z))
        .plus(q.times(W::from_u32(b.z)))
        .plus(r.times(W::from_u32(c.z)))
}

/// The depths' weighted sum at a point.
fn weighted<W: Wide>(a: Spot, b: Spot, c: Spot, x: i64, y: i64) -> W
    requires corners { IsWithin W.reach a × IsWithin W.reach b × IsWithin W.reach c }
    requires depths { IsDepth a.z × IsDepth b.z × IsDepth c.z }
    requires point_x { unsigned_abs x ≤ W.reach }
    requires point_y { unsigned_abs y ≤ W.reach }
    ensures { W.int result ≡ weighted a b c x y }
{
    by_depths(
        a,
        b,
        c,
        edge_function::<W>(b, c, x, y),
        edge_function::<W>(c, a, x, y),
        edge_function::<W>(a, b, x, y),
    )
}

/// How much the weighted sum grows from one column to the next.
fn growth<W: Wide>(a: Spot, b: Spot, c: Spot) -> W
    requires corners { IsWithin W.reach a × IsWithin W.reach b × IsWithin W.reach c }
    requires depths { IsDepth a.z × IsDepth b.z × IsDepth c.z }
    ensures { W.int result ≡ growth a b c }
{
    by_depths(
        a,
        b,
        c,
        W::difference(b.y, c.y),
        W::difference(c.y, a.y),
        W::difference(a.y, b.y),
    )
    .times(W::from_u32(SUBPIXELS))
}

/// What the depths of a triangle have in common, by its divisor.
pub(crate) fn depth_plane<W: Wide>(a: Spot, b: Spot, c: Spot, divisor: W) -> DepthPlane<W>
    requires corners { IsWithin W.reach a × IsWithin W.reach b × IsWithin W.reach c }
    requires depths { IsDepth a.z × IsDepth b.z × IsDepth c.z }
    requires area { W.int divisor ≡ edge_function a b c.x c.y }
    requires positive { pos 0 <ℤ W.int divisor }
    ensures { IsDepthPlane a b c (W.int result.divisor) (W.int result.step.whole)
        (W.int result.step.rest) }
{
    DepthPlane {
        divisor,
        step: divide(growth::<W>(a, b, c), divisor),
    }
}

/// The depth's quotient at a point.
pub(crate) fn depth_at<W: Wide>(
    a: Spot,
    b: Spot,
    c: Spot,
    plane: DepthPlane<W>,
    x: i64,
    y: i64,
) -> Quotient<W>
    requires corners { IsWithin W.reach a × IsWithin W.reach b × IsWithin W.reach c }
    requires depths { IsDepth a.z × IsDepth b.z × IsDepth c.z }
    requires plane { IsDepthPlane a b c (W.int plane.divisor) (W.int plane.step.whole)
        (W.int plane.step.rest) }
    requires point_x { unsigned_abs x ≤ W.reach }
    requires point_y { unsigned_abs y ≤ W.reach }
    ensures { IsDivided (weighted a b c x y) (W.int plane.divisor) (W.int result.whole)
        (W.int result.rest) }
{
    divide(weighted::<W>(a, b, c, x, y), plane.divisor)
}
