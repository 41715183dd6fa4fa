ghost use Rattle.std.specs.Prelude.{◌≡◌, ◌<◌, ◌≤◌, ◌^◌, length, IfOk, IfErr, OnOk};
ghost use Rattle.span_io.specs.Reads.{ReadToEnd};
ghost use Rattle.span_io.specs.Texts.{IsText, TextRefused};

use crate::{Consumer, Fed, ReadEnd, Source, read_into};
use geom_core::Memory;
use std::alloc::Global;

/// Why a text wasn't gathered: the first that holds, in this order. `Memory` may come at any place.
#[derive(Clone, Copy, Debug, PartialEq, Eq)]
pub enum TextFault {
    /// A read failed before the source's end, and before the first byte too many.
    Read,
    /// The source has more bytes than the limit.
    TooLong,
    /// Memory ran out.
    Memory,
}

/// A consumer that keeps all its bytes.
#[derive(Drop)]
struct Gatherer {
    text: Vec<u8>,
}

impl Consumer for Gatherer {
    ghost use Rattle.std.specs.Prelude.{◌≡◌, ◌^◌, ◌++◌, ⊤};

    type Outcome = Memory;

    ghost byte_limit = { 2 ^ 32 };

    ghost has_fed = { λ start now bytes. now.text.items ≡ start.text.items ++ bytes };

    ghost stops = { λ _ _ _. ⊤ };

    fn feed(&mut self, piece: &[u8]) -> Fed<Memory> {
        match self.text.extend_from_slice(piece) {
            Ok(()) => Fed::Continue,
            Err(_) => Fed::Stop(Memory),
        }
    }
}

/// Returns all that the source has left, if that is at most `limit` bytes. Otherwise only the first byte
/// too many is read besides.
pub fn read_text<S: Source>(alloc: Global, src: &mut S, limit: usize) -> Result<Vec<u8>, TextFault>
    requires { limit < 2 ^ 32 }

    ensures text { IfOk result (λ text. IsText (S.left src.old) text.items) }
    ensures byte_limit { IfOk result (λ text. length text.items ≤ limit) }
    ensures read_to_end { OnOk result (ReadToEnd (S.left src.old) (S.left src.new)) }
    ensures no_fault { OnOk result (S.faults src.new ≡ S.faults src.old) }

    ensures refused { IfErr result (TextRefused limit (S.left src.old) (S.left src.new)
        (S.faults src.old) (S.faults src.new)) }
{
    let mut gatherer = Gatherer {
        text: Vec::new(alloc),
    };
    match read_into(alloc, src, limit, &mut gatherer) {
        ReadEnd::End => Ok(gatherer.text),
        ReadEnd::Stopped(Memory) | ReadEnd::Memory => Err(TextFault::Memory),
        ReadEnd::TooLong => Err(TextFault::TooLong),
        ReadEnd::Failed => Err(TextFault::Read),
    }
}
