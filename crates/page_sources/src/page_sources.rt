ghost use Rattle.std.specs.Prelude.{◌≡◌, ◌<◌, ◌^◌, ℕ, List, Option};
ghost use Rattle.page_sources.specs.PageReads.{PageReadDoes};

/// What a read of a page source came to.
#[derive(Clone, Copy, Debug, PartialEq, Eq)]
pub enum PageGot {
    /// The buffer has the bytes from the read's place on.
    All,
    /// The number of bytes from the read's place to the end, fewer than the buffer takes; the buffer begins with
    /// them.
    Short(usize),
    /// The read failed, and the source counted a fault. The buffer may have any bytes.
    Failed,
}

/// What bytes can be read from, at any place and as often as is wished.
///
/// `holds` are the bytes, `None` for a source that doesn't tell them; no read changes them. `faults` is how often the
/// source has failed. Only a read that answers `Failed` changes it: it rises, or it is 2^64 - 1 and stays.
pub trait PageSource: Drop {
    ghost holds: { Self → Option (List ℕ) };

    ghost faults: { Self → ℕ };

    /// Reads the bytes from the place `at` on, counted from 0, until `into` is full. An empty buffer is full, so its
    /// read is never short. After a short read or a failed one the rest of `into` may have any bytes.
    fn read(&mut self, at: u64, into: &mut [u8]) -> PageGot
        ensures outcome { PageReadDoes (holds self.old) (faults self.old) (faults self.new)
            at into.new result }
        ensures unchanged { holds self.new ≡ holds self.old }
        ensures fault_range { faults self.new < 2 ^ 64 };

    /// Returns how often the source has failed; a count of 2^64 - 1 stays as it is.
    fn faults(&self) -> u64
        ensures fault_count { result ≡ faults self.now };
}
