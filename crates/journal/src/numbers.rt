ghost use Rattle.std.specs.Prelude.{◌≡◌, ◌≤◌, ◌^◌};
ghost use Rattle.std.specs.Char.{is_ascii_digit};
ghost use Rattle.std.specs.List.{list_all};
ghost use Rattle.std.specs.Option.{option_map};
ghost use Rattle.journal.specs.FieldNumber.{number_in};
ghost use Rattle.journal.specs.Grammar.{digest_of, is_digest_digit, is_numeral, number_of, number_or_dash_of};

use crate::fields::is_word;
use geom_core::Digest32;

/// Whether each byte of the field is a decimal digit.
fn has_digits_alone(field: &[u8]) -> bool
    ensures { result ≡ list_all is_ascii_digit field.now }
{
    field.iter().all(|byte| byte.is_ascii_digit())
}

/// Whether the field is a numeral: at least one digit, no other byte, and no leading zero.
fn is_numeral(field: &[u8]) -> bool
    ensures { result ≡ is_numeral field.now }
{
    has_digits_alone(field) && !field.is_empty() && !(field[0] == b'0' && field.len() > 1)
}

/// Returns the number that the field spells, or None if it is no numeral or past 64 bits.
pub fn parse_u64(field: &[u8]) -> Option<u64>
    ensures { result ≡ number_of (2 ^ 64) field.now }
{
    if !is_numeral(field) {
        return None;
    }
    match std::str::from_utf8(field) {
        Ok(text) => text.parse().ok(),
        Err(_) => None,
    }
}

/// Returns the number that the field spells, or None if it is no numeral or not below `limit`.
#[tactic(auto, using(crate::proofs::Limits::number_none, crate::proofs::Limits::number_some))]
pub fn parse_below(field: &[u8], limit: u64) -> Option<u32>
    requires { limit ≤ 2 ^ 32 }
    ensures { result ≡ number_of limit field.now }
{
    let number = parse_u64(field)?;
    if number < limit {
        Some(number as u32)
    } else {
        None
    }
}

/// Returns the number that the field spells, or None if it is no numeral or past 32 bits.
pub fn parse_u32(field: &[u8]) -> Option<u32>
    ensures { result ≡ number_of (2 ^ 32) field.now }
{
    parse_below(field, 1 << 32)
}

/// Returns the number that the field spells, or None if it is no numeral or past 8 bits.
#[tactic(auto, using(crate::proofs::Limits::number_none, crate::proofs::Limits::number_some))]
pub fn parse_u8(field: &[u8]) -> Option<u8>
    ensures { result ≡ number_of (2 ^ 8) field.now }
{
    let number = parse_u64(field)?;
    if number < 1 << 8 {
        Some(number as u8)
    } else {
        None
    }
}

/// What a field says that has a number or `-`.
#[derive(Clone, Copy)]
pub enum Field {
    /// A number.
    Number(u32),
    /// `-`, no number.
    Dash,
}

impl Field {
    ghost use Rattle.journal.specs.FieldNumber.{number_in};

    /// Returns the number, or None for `-`.
    pub fn number(self) -> Option<u32>
        ensures { result ≡ number_in self }
    {
        match self {
            Field::Number(number) => Some(number),
            Field::Dash => None,
        }
    }
}

/// Returns the number of 32 bits that the field spells or its `-`, or None if it is neither.
pub fn parse_u32_or_dash(field: &[u8]) -> Option<Field>
    ensures { option_map number_in result ≡ number_or_dash_of field.now }
{
    if is_word(field, b"-") {
        Some(Field::Dash)
    } else {
        Some(Field::Number(parse_u32(field)?))
    }
}

/// Whether each byte of the field is a digit or one of the letters `a` to `f`.
fn has_digest_digits_alone(field: &[u8]) -> bool
    ensures { result ≡ list_all is_digest_digit field.now }
{
    field
        .iter()
        .all(|byte| matches!(*byte, b'0'..=b'9' | b'a'..=b'f'))
}

/// Returns the digest that the field spells, or None if it is not 64 lower-case hexadecimal digits.
pub fn parse_digest(field: &[u8]) -> Option<Digest32>
    ensures { result ≡ digest_of field.now }
{
    if !has_digest_digits_alone(field) {
        return None;
    }
    let mut bytes = [0; 32];
    if hex::decode_to_slice(field, &mut bytes).is_ok() {
        Some(Digest32 { bytes })
    } else {
        None
    }
}
