ghost use Rattle.std.specs.Prelude.{◌≡◌, ◌≤◌, ◌<◌, ℕ, ◌<ℤ◌, ◌≤ℤ◌};
ghost use Rattle.geom_core.specs.declared.limits.TheConstants.{MAX_SIDE};
ghost use Rattle.raster64.specs.Internal.Centres.{centre};

use geom_core::limits::SUBPIXELS;

/// A range of rows or columns.
#[derive(Clone, Copy)]
pub(crate) struct CentreRange {
    /// The first one.
    pub first: u32,
    /// The one after the last.
    pub end: u32,
}

/// The centre of a row or column of a picture, in sixteenths of a pixel.
pub(crate) fn centre_of(at: u32) -> i64
    requires side_limit { at < MAX_SIDE }
    ensures { result ≡ centre at }
{
    i64::from(SUBPIXELS * at + SUBPIXELS / 2)
}

/// The number of the first `count` rows or columns whose centre is before `edge`, in sixteenths of a pixel.
pub(crate) fn centres_before(edge: i64, count: u32) -> u32
    requires side_limit { count ≤ MAX_SIDE }
    ensures limit { result ≤ count }
    ensures before { (k : ℕ) → k < result → centre k <ℤ edge }
    ensures after { (k : ℕ) → result ≤ k → k < count → edge ≤ℤ centre k }
{
    (edge.clamp(0, i64::from(SUBPIXELS * count)) as u32 + (SUBPIXELS / 2 - 1)) / SUBPIXELS
}

/// The rows or columns of the first `count` whose centres lie from the least corner on and before the greatest;
/// `a`, `b` and `c` are the corners, in sixteenths of a pixel.
pub(crate) fn centre_range(a: i64, b: i64, c: i64, count: u32) -> CentreRange
    requires side_limit { count ≤ MAX_SIDE }
    ensures order { result.first ≤ result.end }
    ensures limit { result.end ≤ count }
    ensures before { (k : ℕ) → k < result.first
        → (centre k <ℤ a) × (centre k <ℤ b) × (centre k <ℤ c) }
    ensures after { (k : ℕ) → result.end ≤ k → k < count
        → (a ≤ℤ centre k) × (b ≤ℤ centre k) × (c ≤ℤ centre k) }
{
    CentreRange {
        first: centres_before(a.min(b).min(c), count),
        end: centres_before(a.max(b).max(c), count),
    }
}
