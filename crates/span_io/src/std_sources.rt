ghost use Rattle.std.specs.Prelude.{◌≡◌, ◌<◌, ◌^◌, None, length};
ghost use Rattle.span_io.specs.Reads.{ReadDoes};
ghost use Rattle.span_io.specs.StdForms.{ReaderState, got_from, faults_after_read, Gave};

use crate::faults::count_failure;
use crate::retries::read_retrying;
use crate::{Got, Source};
use std::io::{Read, Result};
use std::marker::Model;

/// A source over a reader of the standard library. As a source it tells no bytes; each failure of the
/// reader counts as one fault. A read that a signal interrupts is made again, and fails after 16 tries.
#[derive(Drop)]
pub struct StdSource<R> {
    reader: R,
    faults: u64,
}

impl<R> Model for StdSource<R> {
    ghost Value = { ReaderState R };

    ghost view = { λ source. record { reader = source.reader; faults = source.faults } };

    ghost invariant = { λ source. source.faults < 2 ^ 64 };
}

impl<R: Read> StdSource<R> {
    /// A source of what the reader reads.
    pub fn of(reader: R) -> StdSource<R>
        ensures { result ≡ record { reader = reader; faults = 0 } }
    {
        StdSource { reader, faults: 0 }
    }
}

/// Returns a source's answer for what a reader answered to a buffer with room: no bytes are the end, and an
/// error is a failure.
pub fn got_from(read: Result<usize>) -> Got
    ensures { result ≡ got_from read }
{
    match read {
        Ok(0) => Got::End,
        Ok(count) => Got::Bytes(count),
        Err(_) => Got::Failed,
    }
}

impl<R: Read> Source for StdSource<R> {
    ghost left = { λ source. None };

    ghost faults = { λ source. source.faults };

    fn read_some(&mut self, into: &mut [u8]) -> Got
        requires { 0 < length into.old }

        ensures outcome { ReadDoes None None self.old.faults self.new.faults into.new result }
        ensures fault_range { self.new.faults < 2 ^ 64 }

        ensures fault_count { self.new.faults ≡ faults_after_read self.old.faults result }
        ensures known_bytes { Gave (R.remaining self.old.reader) (R.remaining self.new.reader)
            into.new result }
    {
        let got = got_from(read_retrying(&mut self.reader, into));
        if matches!(got, Got::Failed) {
            count_failure(&mut self.faults);
        }
        got
    }
}
