ghost use Rattle.std.specs.Prelude.{◌≡◌, ◌≤◌, ℕ, length, take};
ghost use Rattle.std.specs.Bool.{OnTrue, OnFalse};
ghost use Rattle.span_io.specs.Faults.{Rose};
ghost use Rattle.span_io.specs.Puts.{Appends};

use crate::{Sink, Took};

/// Writes all the bytes, in as many calls as the sink wants. Returns whether all were written: after a
/// failed call only some of the first bytes were, perhaps none, and no further call is made.
pub fn put_all<K: Sink>(out: &mut K, bytes: &[u8]) -> bool
    ensures appended { OnTrue result (Appends (K.written out.old) (K.written out.new)
        (K.flushed out.old) (K.flushed out.new) bytes.now) }
    ensures no_fault { OnTrue result (K.faults out.new ≡ K.faults out.old) }

    ensures cause { OnFalse result (Rose (K.faults out.old) (K.faults out.new)) }
    ensures prefix { OnFalse result ((n : ℕ) × (n ≤ length bytes.now) ×
        Appends (K.written out.old) (K.written out.new) (K.flushed out.old) (K.flushed out.new)
        (take n bytes.now)) }
{
    let mut at = 0;
    while at < bytes.len() {
        match out.write_some(&bytes[at..]) {
            Took::Bytes(taken) => at += taken,
            Took::Failed => return false,
        }
    }
    true
}
