ghost use Rattle.std.specs.Prelude.{◌≡◌, ◌*◌, ◌<◌, ◌≤◌, ◌^◌, pos, ◌*ℤ◌};
ghost use Rattle.geom_core.specs.Limits.{IsScale};
ghost use Rattle.obj_source.specs.Numerals.{signed, nearest, times_power, in_grid};
ghost use Rattle.obj_source.specs.Scans.{coordinate_from};

use crate::decimals::Decimal;
use crate::numbers::NumberWhy;
use geom_core::limits::MAX_COORDINATE;

/// The number of digits after the point from which on any numeral is 0, whatever its exponent.
const MAX_DECIMAL_PLACES: usize = 20_000;

/// One step times the next power of ten is outside of the grid.
const HIGHEST_POWER: i32 = 6;

/// 2^76 steps times the power of ten before it are less than half a step.
const LOWEST_POWER: i32 = -23;

/// The powers of ten below 10^19.
const POWERS: [u64; 19] = [
    1,
    10,
    100,
    1_000,
    10_000,
    100_000,
    1_000_000,
    10_000_000,
    100_000_000,
    1_000_000_000,
    10_000_000_000,
    100_000_000_000,
    1_000_000_000_000,
    10_000_000_000_000,
    100_000_000_000_000,
    1_000_000_000_000_000,
    10_000_000_000_000_000,
    100_000_000_000_000_000,
    1_000_000_000_000_000_000,
];

/// A power of ten below 10^19.
fn power_of_ten(exponent: u32) -> u64
    requires { exponent < 19 }
    ensures power { result ≡ 10 ^ exponent }
    ensures positive { 1 ≤ result }
    ensures power_limit { result ≤ 10 ^ 18 }
{
    POWERS[exponent as usize]
}

/// A power of ten below 10^24.
fn wide_power_of_ten(exponent: u32) -> u128
    requires { exponent < 24 }
    ensures power { result ≡ 10 ^ exponent }
    ensures positive { 1 ≤ result }
    ensures power_limit { result ≤ 10 ^ 23 }
{
    10u128.pow(exponent)
}

/// The coordinate of this size, where it is within the grid.
fn in_grid(is_negative: bool, size: u128) -> Result<i32, NumberWhy>
    ensures { result ≡ in_grid (signed is_negative size) }
{
    if size > u128::from(MAX_COORDINATE) {
        return Err(NumberWhy::Range);
    }
    let size = size as i32;
    Ok(if is_negative { -size } else { size })
}

/// The size of steps / 10^places, rounded to the nearest whole number, halves up, in 64 bits.
fn round_half_up(is_negative: bool, steps: u64, places: u32) -> u64
    requires step_limit { steps < 2 ^ 62 }
    requires place_limit { places < 19 }
    ensures { signed is_negative result ≡ nearest (signed is_negative steps) (10 ^ places) }
{
    let unit = power_of_ten(places);
    (2 * steps + unit - u64::from(is_negative)) / (2 * unit)
}

/// The size of steps / 10^places, rounded to the nearest whole number, halves up, in 128 bits.
fn round_half_up_wide(is_negative: bool, steps: u128, places: u32) -> u128
    requires step_limit { steps < 2 ^ 76 }
    requires place_limit { places < 24 }
    ensures { signed is_negative result ≡ nearest (signed is_negative steps) (10 ^ places) }
{
    let unit = wide_power_of_ten(places);
    (2 * steps + unit - u128::from(is_negative)) / (2 * unit)
}

/// The coordinate steps / 10^places, rounded.
fn divide_rounded(is_negative: bool, steps: u128, places: u32) -> Result<i32, NumberWhy>
    requires step_limit { steps < 2 ^ 76 }
    requires place_limit { places < 24 }
    ensures { result ≡ in_grid (nearest (signed is_negative steps) (10 ^ places)) }
{
    let is_small = steps < 1 << 62 && places < 19;
    let size = if is_small {
        u128::from(round_half_up(is_negative, steps as u64, places))
    } else {
        round_half_up_wide(is_negative, steps, places)
    };
    in_grid(is_negative, size)
}

/// The coordinate steps * 10^power.
fn multiply_exact(is_negative: bool, steps: u128, power: u32) -> Result<i32, NumberWhy>
    requires step_limit { steps < 2 ^ 76 }
    requires power { power ≤ 6 }
    ensures { result ≡ in_grid (signed is_negative steps *ℤ pos (10 ^ power)) }
{
    let size = steps * u128::from(power_of_ten(power));
    in_grid(is_negative, size)
}

/// The coordinate steps * 10^power, rounded.
fn scale_by_power(is_negative: bool, steps: u128, power: i32) -> Result<i32, NumberWhy>
    requires positive { 1 ≤ steps }
    requires step_limit { steps < 2 ^ 76 }
    ensures { result ≡ in_grid (times_power (signed is_negative steps) power) }
{
    if power > HIGHEST_POWER {
        return Err(NumberWhy::Range);
    }
    if power < LOWEST_POWER {
        return Ok(0);
    }
    if power < 0 {
        return divide_rounded(is_negative, steps, power.unsigned_abs());
    }
    multiply_exact(is_negative, steps, power as u32)
}

/// The coordinate of a number on a grid of `scale` steps to the unit.
pub(crate) fn coordinate_from(decimal: Decimal, scale: u32) -> Result<i32, NumberWhy>
    requires scale_range { IsScale scale }
    ensures { result ≡ coordinate_from scale decimal.is_negative decimal.digits decimal.behind
        decimal.exponent }
{
    if decimal.digits == 0 || decimal.behind > MAX_DECIMAL_PLACES {
        return Ok(0);
    }
    let power = decimal.exponent - decimal.behind as i32;
    let steps = u128::from(decimal.digits) * u128::from(scale);
    scale_by_power(decimal.is_negative, steps, power)
}
