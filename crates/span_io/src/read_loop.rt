ghost use Rattle.std.specs.Prelude.{◌≡◌, ◌≤◌, ◌<◌, ◌^◌, [], IfOk, vec_len};
ghost use Rattle.span_io.specs.Consumers.{ReadsInto};

use crate::{Consumer, Fed, Got, Source};
use geom_core::limits::READ_BYTES;
use std::alloc::{AllocError, Global};

/// How the reading of a source into a consumer ended.
#[derive(Clone, Copy, Debug, PartialEq, Eq)]
pub enum ReadEnd<T> {
    /// The source has no more bytes.
    End,
    /// The consumer stopped, with this outcome.
    Stopped(T),
    /// One byte more than the limit was read.
    TooLong,
    /// A read failed.
    Failed,
    /// There was no memory for the buffer; nothing was read.
    Memory,
}

/// Returns a buffer of `len` zero bytes.
fn zeros(alloc: Global, len: usize) -> Result<Vec<u8>, AllocError>
    ensures { IfOk result (λ bytes. vec_len bytes ≡ len) }
{
    vec![in alloc; 0; len]
}

/// Reads what the source has left, at most `limit` bytes, and feeds it to the consumer, piece by piece.
///
/// If the source has more bytes, one more is read. The consumer is never fed more than `limit` bytes, and no
/// read is made after it stopped.
pub fn read_into<S: Source, C: Consumer>(
    alloc: Global,
    src: &mut S,
    limit: usize,
    consumer: &mut C,
) -> ReadEnd<C::Outcome>
    requires limit_range { limit < 2 ^ 32 }
    requires byte_limit { limit ≤ C.byte_limit }
    requires unfed { C.has_fed consumer.old consumer.old [] }

    ensures outcome { ReadsInto (C.has_fed consumer.old) (C.stops consumer.old) limit
        (S.left src.old) (S.left src.new) (S.faults src.old) (S.faults src.new)
        consumer.old consumer.new result }
{
    let Ok(mut buffer) = zeros(alloc, READ_BYTES) else {
        return ReadEnd::Memory;
    };
    let mut count = 0;
    'pieces: while count <= limit {
        let room = READ_BYTES.min(limit + 1 - count);
        let piece = &mut buffer[..room];
        match src.read_some(piece) {
            Got::Bytes(more) => {
                match consumer.feed(&piece[..more.min(limit - count)]) {
                    Fed::Continue => count += more,
                    Fed::Stop(outcome) => return ReadEnd::Stopped(outcome),
                }
            }
            Got::End => return ReadEnd::End,
            Got::Failed => return ReadEnd::Failed,
        }
    }
    ReadEnd::TooLong
}
