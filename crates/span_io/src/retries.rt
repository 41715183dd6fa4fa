ghost use Rattle.std.specs.Io.{ReadsAtMost, WritesAtMost};
ghost use Rattle.std.specs.Io.KnownBytes.{ReadConsumes, WriteAppends, Keeps};

use std::io::{ErrorKind, Read, Result, Write};

/// How often a call is made before a signal's interruption counts as a failure.
const TRIES: u32 = 16;

/// Reads, and reads again where a signal interrupted it.
pub fn read_retrying<R: Read>(reader: &mut R, into: &mut [u8]) -> Result<usize>
    ensures bound { ReadsAtMost result into.new }
    ensures known_bytes { ReadConsumes (R.remaining reader.old) (R.remaining reader.new)
        result into.new }
{
    for _ in 1..TRIES {
        match reader.read(into) {
            Err(error) if error.kind() == ErrorKind::Interrupted => {}
            answer => return answer,
        }
    }
    reader.read(into)
}

/// Writes, and writes again where a signal interrupted it.
pub fn write_retrying<W: Write>(writer: &mut W, from: &[u8]) -> Result<usize>
    ensures bound { WritesAtMost result from.now }
    ensures known_bytes { WriteAppends (W.contents writer.old) (W.contents writer.new)
        result from.now }
{
    for _ in 1..TRIES {
        match writer.write(from) {
            Err(error) if error.kind() == ErrorKind::Interrupted => {}
            answer => return answer,
        }
    }
    writer.write(from)
}

/// Flushes, and flushes again where a signal interrupted it.
pub fn flush_retrying<W: Write>(writer: &mut W) -> Result<()>
    ensures { Keeps (W.contents writer.old) (W.contents writer.new) }
{
    for _ in 1..TRIES {
        match writer.flush() {
            Err(error) if error.kind() == ErrorKind::Interrupted => {}
            answer => return answer,
        }
    }
    writer.flush()
}
