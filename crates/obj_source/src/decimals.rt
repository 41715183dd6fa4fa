ghost use Rattle.std.specs.Prelude.{◌≡◌, ◌+◌, ◌<◌, ◌≤◌, ◌^◌, ℕ, min, List, ◌++◌, ◌∷◌, [], length, take, drop, negsuc, pos, ◌≤ℤ◌, MatchOption, IfSome};
ghost use Rattle.std.specs.Char.{is_ascii_digit};
ghost use Rattle.std.specs.List.{prefix_len};
ghost use Rattle.obj_source.specs.Numerals.{has_minus, without_sign, exponent_of};
ghost use Rattle.obj_source.specs.Scans.{AreCounted, short_number, exponent_behind, digits_behind, rest_behind, IsBad, IsDecimal};

/// How many significant digits of a numeral count.
const MOST_DIGITS: usize = 18;

/// How many digits an exponent has at most.
const MOST_EXPONENT_DIGITS: usize = 4;

/// The digits of a numeral that were read so far.
#[derive(Clone, Copy)]
struct Digits {
    /// The number that the first 18 significant digits write.
    value: u64,
    /// How many digits there are from the first one on that isn't 0.
    significant: usize,
    ghost in_range: { value < 10 ^ min significant 18 },
}

/// Digits in a row.
#[derive(Clone, Copy)]
struct Run {
    /// What they and the digits before them come to.
    digits: Digits,
    /// How many they are.
    len: usize,
}

/// A numeral as a whole number times a power of ten.
#[derive(Clone, Copy)]
pub(crate) struct Decimal {
    /// Whether the word begins with a minus.
    pub(crate) is_negative: bool,
    /// The number that the digits that count write.
    pub(crate) digits: u64,
    /// How many of these digits are after the point.
    pub(crate) behind: usize,
    /// The number after the `e`.
    pub(crate) exponent: i32,
    ghost few_digits: { digits < 10 ^ 18 },
    ghost low: { negsuc 9998 ≤ℤ exponent },
    ghost high: { exponent ≤ℤ pos 9999 },
}

impl Digits {
    /// No digit yet.
    const NONE: Digits = Digits {
        value: 0,
        significant: 0,
    };

    /// One digit more.
    fn with(self, digit: u8) -> Digits
        requires digit { digit < 10 }
        requires room { self.significant + 1 < 2 ^ 64 }
        ensures counted { (before : List ℕ) → AreCounted self.value self.significant before
            → AreCounted result.value result.significant (before ++ (48 + digit) ∷ []) }
        ensures room { result.significant ≤ self.significant + 1 }
    {
        if self.significant >= MOST_DIGITS {
            return Digits {
                value: self.value,
                significant: self.significant + 1,
            };
        }
        let is_significant = self.significant > 0 || digit > 0;
        Digits {
            value: self.value * 10 + u64::from(digit),
            significant: self.significant + usize::from(is_significant),
        }
    }
}

/// The digits with which `bytes` begin, after those read before.
fn read_digits(bytes: &[u8], before: Digits) -> Run
    requires room { before.significant + length bytes.now < 2 ^ 64 }
    ensures len { result.len ≡ prefix_len is_ascii_digit bytes.now }
    ensures counted { (digits : List ℕ) → AreCounted before.value before.significant digits
        → AreCounted result.digits.value result.digits.significant
        (digits ++ take result.len bytes.now) }
    ensures room { result.digits.significant ≤ before.significant + result.len }
{
    let mut digits = before;
    for (len, byte) in bytes.iter().enumerate() {
        if !byte.is_ascii_digit() {
            return Run { digits, len };
        }
        digits = digits.with(*byte - b'0');
    }
    Run {
        digits,
        len: bytes.len(),
    }
}

/// The digits after the point with which `bytes` begin, and what follows them; if they begin with no point,
/// no digits and all bytes.
fn read_fraction(bytes: &[u8], whole: Digits) -> (Run, &[u8])
    requires room { whole.significant + length bytes.now < 2 ^ 64 }
    ensures len { result.0.len ≡ length (digits_behind bytes.now) }
    ensures counted { (digits : List ℕ) → AreCounted whole.value whole.significant digits
        → AreCounted result.0.digits.value result.0.digits.significant
        (digits ++ digits_behind bytes.now) }
    ensures rest { result.1.now ≡ rest_behind bytes.now }
{
    match bytes {
        [b'.', behind @ ..] => {
            let run = read_digits(behind, whole);
            (run, &behind[run.len..])
        }
        _ => (
            Run {
                digits: whole,
                len: 0,
            },
            bytes,
        ),
    }
}

/// Whether the word begins with a minus, and the word without its sign, if it has one.
fn split_sign(word: &[u8]) -> (bool, &[u8])
    ensures sign { result.0 ≡ has_minus word.now }
    ensures rest { result.1.now ≡ without_sign word.now }
{
    match word {
        [b'-', rest @ ..] => (true, rest),
        [b'+', rest @ ..] => (false, rest),
        _ => (false, word),
    }
}

/// The number that one to four digits write; none for any other word.
fn number_of(word: &[u8]) -> Option<u32>
    ensures number { result ≡ short_number word.now }
    ensures small { IfSome result (λ n. n < 10 ^ 4) }
{
    if word.is_empty() || word.len() > MOST_EXPONENT_DIGITS {
        return None;
    }
    let mut number = 0;
    for byte in word {
        if !byte.is_ascii_digit() {
            return None;
        }
        number = number * 10 + u32::from(*byte - b'0');
    }
    Some(number)
}

/// The number that one to four digits write, after a sign or not; none for any other word.
fn exponent_of(word: &[u8]) -> Option<i32>
    ensures value { result ≡ exponent_of word.now }
    ensures small { IfSome result (λ n. (negsuc 9998 ≤ℤ n) × (n ≤ℤ pos 9999)) }
{
    let (is_negative, digits) = split_sign(word);
    let number = number_of(digits)? as i32;
    Some(if is_negative { -number } else { number })
}

/// The number after the `e` with which `bytes` begin, and 0 where none are left; none for other bytes.
fn read_exponent(bytes: &[u8]) -> Option<i32>
    ensures value { result ≡ exponent_behind bytes.now }
    ensures small { IfSome result (λ n. (negsuc 9998 ≤ℤ n) × (n ≤ℤ pos 9999)) }
{
    match bytes {
        [] => Some(0),
        [b'e' | b'E', exponent @ ..] => exponent_of(exponent),
        _ => None,
    }
}

/// The number that a word writes, of which 18 significant digits count; none where it is no numeral, or has
/// more significant digits before its point.
pub(crate) fn decimal_of(word: &[u8]) -> Option<Decimal>
    ensures { MatchOption result (IsBad word.now)
        (λ d. IsDecimal word.now d.is_negative d.digits d.behind d.exponent) }
{
    let (is_negative, rest) = split_sign(word);
    let whole = read_digits(rest, Digits::NONE);
    let (fraction, rest) = read_fraction(&rest[whole.len..], whole.digits);
    if whole.digits.significant > MOST_DIGITS {
        return None;
    }
    if whole.len == 0 && fraction.len == 0 {
        return None;
    }
    let exponent = read_exponent(rest)?;
    let dropped = fraction.digits.significant.saturating_sub(MOST_DIGITS);
    Some(Decimal {
        is_negative,
        digits: fraction.digits.value,
        behind: fraction.len - dropped,
        exponent,
    })
}
