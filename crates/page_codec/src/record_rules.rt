ghost use Rattle.std.specs.Prelude.{◌≡◌, ◌≤◌, ◌<◌, ◌+◌, ◌*◌, ◌^◌, ℕ, List, length};
ghost use Rattle.page_codec.specs.Breaks.{breaks_in, first_of};

use crate::breaks::Break;

/// The rules of one kind of record.
pub(crate) trait RecordRules {
    /// The bytes of a record.
    ghost size: { ℕ };

    /// The rules that a record breaks, ascending.
    ghost broken: { Self → List ℕ → List ℕ };

    /// Returns the bytes of a record.
    fn size() -> usize
        ensures size { result ≡ size };

    /// Returns the least rule that the record breaks.
    fn first_rule(&self, bytes: &[u8]) -> Option<u8>
        requires length { length bytes.now ≡ size }
        ensures rule { result ≡ first_of (broken self.now bytes.now) };
}

/// Returns the first break of `count` records from the start of the bytes; the first record's place is `start`.
pub(crate) fn first_break<R: RecordRules>(
    rules: &R,
    bytes: &[u8],
    start: u32,
    count: u32,
) -> Option<Break>
    requires length { R.size * count ≤ length bytes.now }
    requires place { start + R.size * count < 2 ^ 32 }
    ensures first { result ≡ first_of (breaks_in (R.broken rules.now) R.size start count bytes.now) }
{
    let mut rest = bytes;
    let mut offset = start;
    'records: for k in 0..count {
        let (record, tail) = rest.split_at(R::size());
        if let Some(rule) = rules.first_rule(record) {
            return Some(Break { rule, offset });
        }
        offset += R::size() as u32;
        rest = tail;
    }
    None
}
