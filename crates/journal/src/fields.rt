ghost use Rattle.std.specs.Prelude.{◌≡◌, ◌==◌, ◌++◌, ◌∷◌, List, [], ℕ, false, MatchOption};
ghost use Rattle.std.specs.List.{All};
ghost use Rattle.std.specs.Option.{option_map};
ghost use Rattle.std.specs.Str.{bytes_eq};
ghost use Rattle.journal.specs.RestOfLine.{fields_left};
ghost use Rattle.journal.specs.Grammar.{after_word, is_empty, single, pair, fields_of, triple};

use std::marker::Model;

/// Returns the bytes before the first `at`, and the bytes after it; if there is no `at`, all bytes and None.
pub fn cut_at(bytes: &[u8], at: u8) -> (&[u8], Option<&[u8]>)
    ensures apart { All (λ byte. (byte == at) ≡ false) result.0.now }
    ensures whole { MatchOption result.1 (bytes.now ≡ result.0.now)
        (λ rest. bytes.now ≡ result.0.now ++ at ∷ rest.now) }
{
    match bytes.iter().position(|byte| *byte == at) {
        Some(end) => (&bytes[..end], Some(&bytes[end + 1..])),
        None => (bytes, None),
    }
}

/// Whether the field is the word.
pub fn is_word(field: &[u8], word: &[u8]) -> bool
    ensures { result ≡ bytes_eq field.now word.now }
{
    field == word
}

/// The fields of a line that are not yet read, separated by single spaces. A contract sees the list of
/// them.
#[derive(Drop)]
pub struct Fields<'a> {
    rest: Option<&'a [u8]>,
}

impl<'a> Model for Fields<'a> {
    ghost Value = { List (List ℕ) };

    ghost view = { λ fields. fields_left fields.rest };
}

impl<'a> Fields<'a> {
    /// Returns the fields of a line: the bytes between its spaces, at least one field.
    pub fn from_line(line: &'a [u8]) -> Fields<'a>
        ensures { result ≡ fields_of line.now }
    {
        Fields { rest: Some(line) }
    }

    /// Returns the fields, and leaves them to be read again.
    pub fn reborrow(&self) -> Fields<'a>
        ensures { result ≡ self.now }
    {
        Fields { rest: self.rest }
    }

    /// Whether no field is left.
    pub fn is_empty(&self) -> bool
        ensures { result ≡ is_empty self.now }
    {
        self.rest.is_none()
    }

    /// Returns the first field and the fields after it, or None if there is no field.
    pub fn split_first(self) -> Option<(&'a [u8], Fields<'a>)>
        ensures { MatchOption result (self.entry ≡ [])
            (λ found. self.entry ≡ found.0.now ∷ found.1) }
    {
        let (field, rest) = cut_at(self.rest?, b' ');
        Some((field, Fields { rest }))
    }

    /// Returns the field if there is exactly one.
    pub fn single(self) -> Option<&'a [u8]>
        ensures { option_map (λ field. field.now) result ≡ single self.entry }
    {
        let (field, rest) = self.split_first()?;
        match rest.split_first() {
            None => Some(field),
            Some(_) => None,
        }
    }

    /// Returns the fields if there are exactly two.
    pub fn pair(self) -> Option<(&'a [u8], &'a [u8])>
        ensures { option_map (λ found. (found.0.now, found.1.now)) result ≡ pair self.entry }
    {
        let (first, rest) = self.split_first()?;
        Some((first, rest.single()?))
    }

    /// Returns the fields if there are exactly three.
    pub fn triple(self) -> Option<(&'a [u8], &'a [u8], &'a [u8])>
        ensures { option_map (λ found. (found.0.now, found.1.now, found.2.now)) result ≡
            triple self.entry }
    {
        let (first, rest) = self.split_first()?;
        let (second, third) = rest.pair()?;
        Some((first, second, third))
    }

    /// Returns the fields after the first if the first is the word.
    pub fn after_word(self, word: &[u8]) -> Option<Fields<'a>>
        ensures { result ≡ after_word word.now self.entry }
    {
        let (field, rest) = self.split_first()?;
        if is_word(field, word) {
            Some(rest)
        } else {
            None
        }
    }
}
