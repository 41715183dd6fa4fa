ghost use Rattle.std.specs.Prelude.{◌<◌, ◌^◌, ℕ, List, Option, Bool, length};
ghost use Rattle.span_io.specs.Writes.{WriteDoes, FinishDoes};

/// What a write into a sink came to.
#[derive(Clone, Copy, Debug, PartialEq, Eq)]
pub enum Took {
    /// The number of bytes that were taken, at least 1; they are the first of those offered.
    Bytes(usize),
    /// Nothing was taken, and the sink counted a fault.
    Failed,
}

/// What bytes can be written into, in order.
///
/// `written` are the bytes that were taken, `None` for a sink that doesn't tell them. `faults` is how
/// often the sink has failed. Only a call that fails changes it: it rises, or it is 2^64 - 1 and stays.
/// `flushed` says that no byte was taken since the last `finish` that answered true.
pub trait Sink {
    ghost written: { Self → Option (List ℕ) };

    ghost flushed: { Self → Bool };

    ghost faults: { Self → ℕ };

    /// Takes some of the bytes, from the first on.
    fn write_some(&mut self, from: &[u8]) -> Took
        requires { 0 < length from.now }
        ensures outcome { WriteDoes (written self.old) (written self.new)
            (flushed self.old) (flushed self.new) (faults self.old) (faults self.new)
            from.now result }
        ensures fault_range { faults self.new < 2 ^ 64 };

    /// Flushes what was taken. Returns whether that succeeded.
    fn finish(&mut self) -> bool
        ensures outcome { FinishDoes (written self.old) (written self.new)
            (flushed self.old) (flushed self.new) (faults self.old) (faults self.new) result }
        ensures fault_range { faults self.new < 2 ^ 64 };
}
