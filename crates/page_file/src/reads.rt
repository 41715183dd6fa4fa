ghost use Rattle.std.specs.Prelude.{◌≡◌, ◌≤◌, ◌<◌, ◌+◌, ◌++◌, ◌^◌, IfErr, IfOk, IfSome, OnOk, length};
ghost use Rattle.page_file.specs.Internal.Seen.{ReadRefused, StandsAt};
ghost use Rattle.page_file.specs.Refusals.{DigestsDiffer};

use crate::open_faults::OpenFault;
use geom_core::Memory;
use geom_core::limits::READ_BYTES;
use page_sources::{PageGot, PageSource};
use std::alloc::Global;

/// Fills the buffer with the file's bytes from the place `at` on, in one read.
pub(crate) fn read_whole<P: PageSource>(
    src: &mut P,
    at: u64,
    into: &mut [u8],
) -> Result<(), OpenFault>
    requires place { at + length into.old < 2 ^ 64 }
    ensures read { OnOk result (IfSome (P.holds src.old) (StandsAt at into.new)) }
    ensures no_fault { OnOk result (P.faults src.new ≡ P.faults src.old) }
    ensures refused { IfErr result (ReadRefused (P.holds src.old) at (length into.new)
        (P.faults src.old) (P.faults src.new)) }
    ensures digests { IfErr result DigestsDiffer }
    ensures unchanged { P.holds src.new ≡ P.holds src.old }
    ensures fault_count { P.faults src.old ≤ P.faults src.new }
{
    match src.read(at, into) {
        PageGot::All => Ok(()),
        PageGot::Short(count) => Err(OpenFault::Truncated {
            at: at + count as u64,
        }),
        PageGot::Failed => Err(OpenFault::PageFault),
    }
}

/// Returns a buffer of `len` zero bytes.
pub(crate) fn zeros(alloc: Global, len: usize) -> Result<Vec<u8>, Memory>
    ensures size { IfOk result (λ bytes. length bytes.items ≡ len) }
{
    Ok(vec![in alloc; 0; len]?)
}

/// Reads `len` bytes from the place `at` on, in one read.
fn read_piece<P: PageSource>(
    alloc: Global,
    src: &mut P,
    at: u64,
    len: usize,
) -> Result<Vec<u8>, OpenFault>
    requires place { at < 2 ^ 33 }
    requires limit { len < 2 ^ 32 }
    ensures size { IfOk result (λ piece. length piece.items ≡ len) }
    ensures read { IfOk result (λ piece. IfSome (P.holds src.old) (StandsAt at piece.items)) }
    ensures no_fault { OnOk result (P.faults src.new ≡ P.faults src.old) }
    ensures refused { IfErr result (ReadRefused (P.holds src.old) at len
        (P.faults src.old) (P.faults src.new)) }
    ensures digests { IfErr result DigestsDiffer }
    ensures unchanged { P.holds src.new ≡ P.holds src.old }
    ensures fault_count { P.faults src.old ≤ P.faults src.new }
{
    let mut piece = zeros(alloc, len)?;
    read_whole(src, at, &mut piece)?;
    Ok(piece)
}

/// Appends a piece. The room at least doubles if there is too little, but is never for more than `len` bytes.
fn append(text: &mut Vec<u8>, piece: &[u8], len: usize) -> Result<(), Memory>
    requires size { length text.old.items + length piece.now ≤ len }
    requires limit { len < 2 ^ 32 }
    ensures appended { OnOk result (text.new.items ≡ text.old.items ++ piece.now) }
{
    let used = text.len();
    let room = (used + piece.len()).max(used.saturating_mul(2).min(len));
    text.reserve_exact(room - used)?;
    text.extend_from_slice(piece)?;
    Ok(())
}

/// Reads `len` bytes from the place `at` on, in reads of `READ_BYTES`, the last one of what is left. The room for a
/// piece is taken only once the piece was read.
pub(crate) fn read_text<P: PageSource>(
    alloc: Global,
    src: &mut P,
    at: u64,
    len: usize,
) -> Result<Vec<u8>, OpenFault>
    requires place { at < 2 ^ 32 }
    requires limit { len < 2 ^ 32 }
    ensures size { IfOk result (λ text. length text.items ≡ len) }
    ensures read { IfOk result (λ text. IfSome (P.holds src.old) (StandsAt at text.items)) }
    ensures no_fault { OnOk result (P.faults src.new ≡ P.faults src.old) }
    ensures refused { IfErr result (ReadRefused (P.holds src.old) at len
        (P.faults src.old) (P.faults src.new)) }
    ensures digests { IfErr result DigestsDiffer }
    ensures unchanged { P.holds src.new ≡ P.holds src.old }
    ensures fault_count { P.faults src.old ≤ P.faults src.new }
{
    let mut text = Vec::new(alloc);
    'reads: while text.len() < len {
        let more = (len - text.len()).min(READ_BYTES);
        let piece = read_piece(alloc, src, at + text.len() as u64, more)?;
        append(&mut text, &piece, len)?;
    }
    Ok(text)
}
