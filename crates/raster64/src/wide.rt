ghost use Rattle.std.specs.Prelude.{◌≡◌, ◌≤◌, ◌-◌, ◌*◌, ◌^◌, ℕ, ℤ, pos, ◌+ℤ◌, ◌-ℤ◌, ◌*ℤ◌, ◌<ℤ◌, int_lt, int_le, unsigned_abs};
ghost use Rattle.std.proofs.Common.{rules};
ghost use Rattle.geom_core.specs.Floor.{floor_div};
ghost use Rattle.geom_core.specs.declared.limits.TheConstants.{MAX_DEPTH, MAX_SCREEN_COORDINATE};
ghost use Rattle.raster64.specs.declared.reach.TheConstants.{NEAR_COORDINATE};

/// A signed integer type in which a triangle's products are computed.
pub(crate) trait Wide: Copy {
    // The number of a value.
    ghost int: { Self → ℤ };

    // The greatest distance from 0 of a number that the type holds for certain.
    ghost most: { ℕ };

    // The greatest distance from 0 of a coordinate whose products the type holds.
    ghost reach: { ℕ };

    /// The difference of two coordinates.
    fn difference(a: i64, b: i64) -> Self
        requires a { unsigned_abs a ≤ MAX_SCREEN_COORDINATE }
        requires b { unsigned_abs b ≤ MAX_SCREEN_COORDINATE }
        ensures { int result ≡ a -ℤ b };

    /// The number of a depth, or another small one.
    fn from_u32(n: u32) -> Self
        ensures { int result ≡ pos n };

    fn plus(self, other: Self) -> Self
        requires { unsigned_abs (int self +ℤ int other) ≤ most }
        ensures { int result ≡ int self +ℤ int other };

    fn minus(self, other: Self) -> Self
        requires { unsigned_abs (int self -ℤ int other) ≤ most }
        ensures { int result ≡ int self -ℤ int other };

    fn times(self, other: Self) -> Self
        requires { unsigned_abs (int self *ℤ int other) ≤ most }
        ensures { int result ≡ int self *ℤ int other };

    /// The quotient rounded down.
    fn quotient(self, divisor: Self) -> Self
        requires { pos 0 <ℤ int divisor }
        ensures { int result ≡ floor_div (int self) (int divisor) };

    fn is_positive(self) -> bool
        ensures { result ≡ int_lt (pos 0) (int self) };

    fn is_at_least(self, other: Self) -> bool
        ensures { result ≡ int_le (int other) (int self) };

    /// The same number, which is small.
    fn to_i64(self) -> i64
        requires { unsigned_abs (int self) ≤ 2 ^ 43 }
        ensures { result ≡ int self };

    ghost coordinates: { reach ≤ MAX_SCREEN_COORDINATE };

    // Each centre of a picture, and the one after the last, is within reach.
    ghost centres: { NEAR_COORDINATE ≤ reach };

    // A weighted sum of three edge functions and depths is held, and a third more.
    ghost products: { 4 * (8 * (reach * reach) * MAX_DEPTH) ≤ most };
}

impl Wide for i64 {
    ghost int = { λ n. n };

    ghost most = { 2 ^ 63 - 1 };

    ghost reach = { NEAR_COORDINATE };

    #[inline(always)]
    fn difference(a: i64, b: i64) -> i64 {
        a - b
    }

    #[inline(always)]
    fn from_u32(n: u32) -> i64 {
        i64::from(n)
    }

    #[inline(always)]
    fn plus(self, other: i64) -> i64 {
        self + other
    }

    #[inline(always)]
    fn minus(self, other: i64) -> i64 {
        self - other
    }

    #[inline(always)]
    fn times(self, other: i64) -> i64 {
        self * other
    }

    #[inline(always)]
    fn quotient(self, divisor: i64) -> i64 {
        self.div_euclid(divisor)
    }

    #[inline(always)]
    fn is_positive(self) -> bool {
        self > 0
    }

    #[inline(always)]
    fn is_at_least(self, other: i64) -> bool {
        self >= other
    }

    #[inline(always)]
    fn to_i64(self) -> i64 {
        self
    }

    ghost coordinates = { Prim.search rules };

    ghost centres = { Prim.search rules };

    ghost products = { Prim.search rules };
}

impl Wide for i128 {
    ghost int = { λ n. n };

    ghost most = { 2 ^ 127 - 1 };

    ghost reach = { MAX_SCREEN_COORDINATE };

    #[inline(always)]
    fn difference(a: i64, b: i64) -> i128 {
        i128::from(a - b)
    }

    #[inline(always)]
    fn from_u32(n: u32) -> i128 {
        i128::from(n)
    }

    #[inline(always)]
    fn plus(self, other: i128) -> i128 {
        self + other
    }

    #[inline(always)]
    fn minus(self, other: i128) -> i128 {
        self - other
    }

    #[inline(always)]
    fn times(self, other: i128) -> i128 {
        self * other
    }

    #[inline(always)]
    fn quotient(self, divisor: i128) -> i128 {
        self.div_euclid(divisor)
    }

    #[inline(always)]
    fn is_positive(self) -> bool {
        self > 0
    }

    #[inline(always)]
    fn is_at_least(self, other: i128) -> bool {
        self >= other
    }

    #[inline(always)]
    fn to_i64(self) -> i64 {
        self as i64
    }

    ghost coordinates = { Prim.search rules };

    ghost centres = { Prim.search rules };

    ghost products = { Prim.search rules };
}
