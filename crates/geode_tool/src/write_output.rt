ghost use Rattle.std.specs.Prelude.{◌≡◌, ◌≤◌, ℕ, true, length, take, OnOk, IfErr, OnErr};
ghost use Rattle.span_io.specs.Faults.{Rose};
ghost use Rattle.span_io.specs.Puts.{Appended};

use crate::faults::Fault;
use span_io::{Sink, put_all};

/// Writes all the bytes and flushes the sink.
pub(crate) fn write_whole<K: Sink>(out: &mut K, bytes: &[u8]) -> Result<(), Fault>
    ensures output { OnOk result (Appended (K.written out.old) (K.written out.new) bytes.now) }
    ensures flushed { OnOk result (K.flushed out.new ≡ true) }
    ensures no_fault { OnOk result (K.faults out.new ≡ K.faults out.old) }

    ensures write_fault { IfErr result (λ fault. fault ≡ Fault.WriteFault) }
    ensures cause { OnErr result (Rose (K.faults out.old) (K.faults out.new)) }
    ensures prefix { OnErr result ((count : ℕ) × (count ≤ length bytes.now)
        × Appended (K.written out.old) (K.written out.new) (take count bytes.now)) }

    ensures fault_count { K.faults out.old ≤ K.faults out.new }
{
    if !put_all(out, bytes) {
        return Err(Fault::WriteFault);
    }
    if !out.finish() {
        return Err(Fault::WriteFault);
    }
    Ok(())
}
