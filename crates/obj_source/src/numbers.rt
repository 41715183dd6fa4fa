ghost use Rattle.std.specs.Prelude.{◌≡◌, ◌≤◌};
ghost use Rattle.geom_core.specs.Limits.{IsScale};
ghost use Rattle.obj_source.specs.Numerals.{coordinate_of};

use crate::decimals::decimal_of;
use crate::rounding::coordinate_from;

/// Why a word gave no coordinate.
#[derive(Clone, Copy, Debug, PartialEq, Eq)]
pub enum NumberWhy {
    /// The word is no numeral, or has more than 18 significant digits before its point.
    Bad,
    /// The coordinate isn't from -1,048,576 to 1,048,576.
    Range,
}

/// The coordinate that a word gives on a grid of `scale` steps to the unit.
///
/// A numeral is an optional `+` or `-`, digits with at most one point before, among or after them, and
/// perhaps `e` or `E`, an optional sign and one to four digits. Digits after the point count up to the
/// 18th significant one. The value is then exact; times the scale, it is rounded to the nearest whole
/// number, halves up.
pub fn read_coordinate(word: &[u8], scale: u32) -> Result<i32, NumberWhy>
    requires scale_range { IsScale scale }
    ensures { result ≡ coordinate_of scale word.now }
{
    match decimal_of(word) {
        Some(decimal) => coordinate_from(decimal, scale),
        None => Err(NumberWhy::Bad),
    }
}
