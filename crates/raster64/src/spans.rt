ghost use Rattle.std.specs.Prelude.{◌≡◌, ◌≤◌, ℤ, pos, ◌<ℤ◌, ◌≤ℤ◌, unsigned_abs};
ghost use Rattle.geom_core.specs.declared.limits.TheConstants.{MAX_SIDE};
ghost use Rattle.raster64.specs.Internal.Centres.{centre, AreInRange};
ghost use Rattle.raster64.specs.Internal.Numerators.{IsWithin};
ghost use Rattle.raster64.specs.Span.{crossing_column, is_between, is_in_span};

use crate::ranges::{CentreRange, centres_before};
use crate::wide::Wide;
use geom_core::Spot;

/// Where the edge from `lo` to `hi` crosses the height `y`, rounded up.
fn crossing_column<W: Wide>(lo: Spot, hi: Spot, y: i64) -> i64
    requires ends { IsWithin W.reach lo × IsWithin W.reach hi }
    requires from { lo.y ≤ℤ y }
    requires before { y <ℤ hi.y }
    ensures { result ≡ crossing_column lo hi y }
{
    let run = W::difference(lo.x, hi.x).times(W::difference(y, lo.y));
    lo.x - run.quotient(W::difference(hi.y, lo.y)).to_i64()
}

/// The columns whose centres lie from the lesser of two columns on and before the greater.
fn columns_between(p: i64, q: i64, width: u32) -> CentreRange
    requires side_limit { width ≤ MAX_SIDE }
    ensures { AreInRange (λ k. is_between p q (centre k)) result.first result.end width }
{
    CentreRange {
        first: centres_before(p.min(q), width),
        end: centres_before(p.max(q), width),
    }
}

/// The columns whose centres lie between the crossings of two edges with the height `y`.
fn between_edges<W: Wide>(
    lo: Spot,
    hi: Spot,
    other_lo: Spot,
    other_hi: Spot,
    y: i64,
    width: u32,
) -> CentreRange
    requires ends { IsWithin W.reach lo × IsWithin W.reach hi }
    requires other_ends { IsWithin W.reach other_lo × IsWithin W.reach other_hi }
    requires from { (lo.y ≤ℤ y) × (other_lo.y ≤ℤ y) }
    requires before { (y <ℤ hi.y) × (y <ℤ other_hi.y) }
    requires side_limit { width ≤ MAX_SIDE }
    ensures { AreInRange
        (λ k. is_between (crossing_column lo hi y) (crossing_column other_lo other_hi y) (centre k))
        result.first result.end width }
{
    columns_between(
        crossing_column::<W>(lo, hi, y),
        crossing_column::<W>(other_lo, other_hi, y),
        width,
    )
}

/// The columns of a row that a triangle covers; `y` is the row's centre.
pub(crate) fn covered_columns<W: Wide>(a: Spot, b: Spot, c: Spot, y: i64, width: u32) -> CentreRange
    requires corners { IsWithin W.reach a × IsWithin W.reach b × IsWithin W.reach c }
    requires side_limit { width ≤ MAX_SIDE }
    ensures { AreInRange (λ k. is_in_span a b c (centre k) y) result.first result.end width }
{
    match (a.y <= y, b.y <= y, c.y <= y) {
        (true, false, false) => between_edges::<W>(a, b, a, c, y, width),
        (false, true, false) => between_edges::<W>(b, c, b, a, y, width),
        (false, false, true) => between_edges::<W>(c, a, c, b, y, width),
        (false, true, true) => between_edges::<W>(b, a, c, a, y, width),
        (true, false, true) => between_edges::<W>(a, b, c, b, y, width),
        (true, true, false) => between_edges::<W>(a, c, b, c, y, width),
        (true, true, true) | (false, false, false) => CentreRange { first: 0, end: 0 },
    }
}
