ghost use Rattle.std.specs.Prelude.{◌≡◌, false, true, MatchOption, ℕ, List, ◌<◌, ◌^◌};
ghost use Rattle.std.specs.List.{before_first};
ghost use Rattle.std.specs.Str.Parse.{digits_value};
ghost use Rattle.obj_source.specs.Numerals.{has_minus};
ghost use Rattle.obj_source.specs.Mesh.{reference_of, reference_digits};
ghost use Rattle.obj_source.specs.References.{is_slash, is_number, is_reference};

/// The most digits of a vertex's number.
const MOST_DIGITS: usize = 18;

/// The vertex's number in a corner: counted from the first vertex on, or from the last one backwards.
#[derive(Clone, Copy, Debug, PartialEq, Eq)]
pub(crate) struct Reference {
    /// Whether it is counted backwards.
    pub(crate) is_negative: bool,
    /// The number without its sign.
    pub(crate) number: u64,
}

/// The number that 1 to 18 digits before the first `/` write; none for other bytes.
fn number_before_slash(bytes: &[u8]) -> Option<u64>
    ensures { MatchOption result (is_number (before_first is_slash bytes.now) ≡ false)
        (λ n. (is_number (before_first is_slash bytes.now) ≡ true)
        × (n ≡ digits_value 10 (before_first is_slash bytes.now))) }
{
    let mut number = 0;
    for (len, byte) in bytes.iter().enumerate() {
        if *byte == b'/' {
            return (len > 0).then_some(number);
        }
        if !byte.is_ascii_digit() {
            return None;
        }
        if len == MOST_DIGITS {
            return None;
        }
        number = number * 10 + u64::from(*byte - b'0');
    }
    (!bytes.is_empty()).then_some(number)
}

/// The vertex's number with which a corner's word begins: a minus or none, 1 to 18 digits, and what follows a
/// `/`; none for any other word.
pub(crate) fn vertex_number(word: &[u8]) -> Option<Reference>
    ensures { MatchOption result (is_reference word.now ≡ false)
        (λ r. (is_reference word.now ≡ true) × (r.is_negative ≡ has_minus word.now)
        × (r.number ≡ digits_value 10 (reference_digits word.now))) }
{
    let (is_negative, digits) = match word {
        [b'-', digits @ ..] => (true, digits),
        _ => (false, word),
    };
    let number = number_before_slash(digits)?;
    Some(Reference {
        is_negative,
        number,
    })
}
