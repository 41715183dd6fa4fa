ghost use Rattle.std.specs.Prelude.{◌≡◌, ◌≤◌, ◌*◌, ◌++◌, ℕ, List, length, IfOk, OnOk};
ghost use Rattle.std.specs.List.{flat_map};
ghost use Rattle.page_codec.specs.Numbers.{records};

use geom_core::Memory;
use std::alloc::Global;

/// What a page file has as records of one size.
pub(crate) trait Record: Copy {
    /// The bytes of a record.
    ghost size: { ℕ };

    /// What a record's bytes read as.
    ghost reads: { List ℕ → Self };

    /// What a record spells.
    ghost spells: { Self → List ℕ };

    /// Returns the bytes of a record.
    fn size() -> usize
        ensures size { result ≡ size };

    /// Reads one record.
    fn read(bytes: &[u8]) -> Self
        requires length { length bytes.now ≡ size }
        ensures item { result ≡ reads bytes.now };

    /// Appends the record.
    fn append(self, out: &mut Vec<u8>) -> Result<(), Memory>
        ensures appended { OnOk result (out.new.items ≡ out.old.items ++ spells self) };
}

/// Reads `count` records from the start of the bytes.
pub(crate) fn read_records<R: Record>(
    alloc: Global,
    bytes: &[u8],
    count: usize,
) -> Result<Vec<R>, Memory>
    requires length { R.size * count ≤ length bytes.now }
    ensures records { IfOk result (λ items. items.items ≡ records R.reads R.size count bytes.now) }
{
    let mut items = Vec::with_capacity(alloc, count)?;
    let mut rest = bytes;
    'records: for k in 0..count {
        let (record, tail) = rest.split_at(R::size());
        items.push(R::read(record))?;
        rest = tail;
    }
    Ok(items)
}

/// Appends the records in order.
pub(crate) fn append_records<R: Record>(records: &[R], out: &mut Vec<u8>) -> Result<(), Memory>
    ensures appended { OnOk result (out.new.items ≡ out.old.items ++ flat_map R.spells records.now) }
{
    'records: for record in records {
        record.append(out)?;
    }
    Ok(())
}
