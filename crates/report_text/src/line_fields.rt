ghost use Rattle.std.specs.Prelude.{◌≡◌, ◌++◌, ◌∷◌, [], OnOk, map};
ghost use Rattle.std.specs.Fmt.{decimal};
ghost use Rattle.hex.specs.Hex.{encode_lower};
ghost use Rattle.journal.specs.Spelling.{list_fields, number_or_dash};
ghost use Rattle.report_text.specs.Internal.Spaced.{spaced};

use geom_core::{Digest32, Memory};
use itoa::Buffer;

/// Appends the digits of a number.
pub(crate) fn push_decimal(text: &mut Vec<u8>, number: u64) -> Result<(), Memory>
    ensures { OnOk result (text.new.items ≡ text.old.items ++ decimal number) }
{
    let mut buffer = Buffer::new();
    text.extend_from_slice(buffer.format(number).as_bytes())?;
    Ok(())
}

/// Appends a space and a word.
pub(crate) fn push_word(text: &mut Vec<u8>, word: &[u8]) -> Result<(), Memory>
    ensures { OnOk result (text.new.items ≡ text.old.items ++ 32 ∷ word.now) }
{
    text.push(b' ')?;
    text.extend_from_slice(word)?;
    Ok(())
}

/// Appends a space and a number.
pub(crate) fn push_number(text: &mut Vec<u8>, number: u64) -> Result<(), Memory>
    ensures { OnOk result (text.new.items ≡ text.old.items ++ 32 ∷ decimal number) }
{
    text.push(b' ')?;
    push_decimal(text, number)
}

/// Appends a word and a number, each after a space.
pub(crate) fn push_word_and_number(
    text: &mut Vec<u8>,
    word: &[u8],
    number: u64,
) -> Result<(), Memory>
    ensures { OnOk result
        (text.new.items ≡ text.old.items ++ spaced (word.now ∷ decimal number ∷ [])) }
{
    push_word(text, word)?;
    push_number(text, number)
}

/// Appends a space and the number, or `-` if there is none.
pub(crate) fn push_number_or_dash(text: &mut Vec<u8>, number: Option<u32>) -> Result<(), Memory>
    ensures { OnOk result (text.new.items ≡ text.old.items ++ 32 ∷ number_or_dash number) }
{
    match number {
        Some(number) => push_number(text, number.into()),
        None => push_word(text, b"-"),
    }
}

/// Appends each number after a space.
pub(crate) fn push_numbers(text: &mut Vec<u8>, numbers: &[u32]) -> Result<(), Memory>
    ensures { OnOk result
        (text.new.items ≡ text.old.items ++ spaced (map decimal numbers.now)) }
{
    for number in numbers {
        push_number(text, u64::from(*number))?;
    }
    Ok(())
}

/// Appends a list: each number after a space, or ` -` if there is none.
pub(crate) fn push_list(text: &mut Vec<u8>, numbers: &[u32]) -> Result<(), Memory>
    ensures { OnOk result
        (text.new.items ≡ text.old.items ++ spaced (list_fields numbers.now)) }
{
    if numbers.is_empty() {
        push_word(text, b"-")
    } else {
        push_numbers(text, numbers)
    }
}

/// Appends a word and a list, each field after a space.
pub(crate) fn push_word_and_list(
    text: &mut Vec<u8>,
    word: &[u8],
    numbers: &[u32],
) -> Result<(), Memory>
    ensures { OnOk result
        (text.new.items ≡ text.old.items ++ spaced (word.now ∷ list_fields numbers.now)) }
{
    push_word(text, word)?;
    push_list(text, numbers)
}

/// Appends a space and the 64 digits of a digest, in lower case.
pub(crate) fn push_digest(text: &mut Vec<u8>, digest: Digest32) -> Result<(), Memory>
    ensures { OnOk result
        (text.new.items ≡ text.old.items ++ 32 ∷ encode_lower digest.bytes) }
{
    let mut digits = [0; 64];
    let written = hex::encode_to_slice(digest.bytes, &mut digits);
    prove!(written.is_ok());
    push_word(text, &digits)
}
