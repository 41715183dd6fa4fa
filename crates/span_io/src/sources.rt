ghost use Rattle.std.specs.Prelude.{◌<◌, ◌^◌, ℕ, List, Option, length};
ghost use Rattle.span_io.specs.Reads.{ReadDoes};

/// What a read of a source came to.
#[derive(Clone, Copy, Debug, PartialEq, Eq)]
pub enum Got {
    /// The number of bytes that were read, at least 1; they are the first of the buffer.
    Bytes(usize),
    /// The source has no more bytes.
    End,
    /// The read failed, and the source counted a fault.
    Failed,
}

/// What bytes can be read from, in order and each once.
///
/// `left` are the bytes that are still to be read, `None` for a source that doesn't tell them.
/// `faults` is how often the source has failed. Only a read that answers `Failed` changes it: it rises, or
/// it is 2^64 - 1 and stays.
pub trait Source {
    ghost left: { Self → Option (List ℕ) };

    ghost faults: { Self → ℕ };

    /// Reads some of the bytes left, at least 1 if there are any, to the front of `into`.
    fn read_some(&mut self, into: &mut [u8]) -> Got
        requires { 0 < length into.old }
        ensures outcome { ReadDoes (left self.old) (left self.new)
            (faults self.old) (faults self.new) into.new result }
        ensures fault_range { faults self.new < 2 ^ 64 };
}
