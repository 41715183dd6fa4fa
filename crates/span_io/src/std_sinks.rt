ghost use Rattle.std.specs.Prelude.{◌≡◌, ◌<◌, ◌^◌, None, false, length};
ghost use Rattle.span_io.specs.Writes.{WriteDoes, FinishDoes};
ghost use Rattle.span_io.specs.StdForms.{WriterState, took_from, faults_after_write, faults_after_finish, Holds};
ghost use Rattle.std.specs.Io.KnownBytes.{Keeps};

use crate::faults::count_failure;
use crate::retries::{flush_retrying, write_retrying};
use crate::{Sink, Took};
use std::io::{Result, Write};
use std::marker::Model;

/// A sink over a writer of the standard library. As a sink it tells no bytes; each failure of the
/// writer counts as one fault, and so does a write that takes nothing. A call that a signal interrupts
/// is made again, and fails after 16 tries.
#[derive(Drop)]
pub struct StdSink<W> {
    writer: W,
    flushed: bool,
    faults: u64,
}

impl<W> Model for StdSink<W> {
    ghost Value = { WriterState W };

    ghost view = { λ sink. record {
      writer = sink.writer;
      flushed = sink.flushed;
      faults = sink.faults;
    } };

    ghost invariant = { λ sink. sink.faults < 2 ^ 64 };
}

impl<W: Write> StdSink<W> {
    /// A sink into the writer. It isn't flushed yet.
    pub fn of(writer: W) -> StdSink<W>
        ensures { result ≡ record { writer = writer; flushed = false; faults = 0 } }
    {
        StdSink {
            writer,
            flushed: false,
            faults: 0,
        }
    }
}

/// Returns a sink's answer for what a writer answered to at least one byte: a write that takes nothing is a
/// failure, and so is an error.
pub fn took_from(written: Result<usize>) -> Took
    ensures { result ≡ took_from written }
{
    match written {
        Ok(0) | Err(_) => Took::Failed,
        Ok(count) => Took::Bytes(count),
    }
}

impl<W: Write> Sink for StdSink<W> {
    ghost written = { λ sink. None };

    ghost flushed = { λ sink. sink.flushed };

    ghost faults = { λ sink. sink.faults };

    fn write_some(&mut self, from: &[u8]) -> Took
        requires { 0 < length from.now }

        ensures outcome { WriteDoes None None self.old.flushed self.new.flushed
            self.old.faults self.new.faults from.now result }
        ensures fault_range { self.new.faults < 2 ^ 64 }

        ensures fault_count { self.new.faults ≡ faults_after_write self.old.faults result }
        ensures known_bytes { Holds (W.contents self.old.writer) (W.contents self.new.writer)
            from.now result }
    {
        let took = took_from(write_retrying(&mut self.writer, from));
        match took {
            Took::Bytes(_) => self.flushed = false,
            Took::Failed => count_failure(&mut self.faults),
        }
        took
    }

    fn finish(&mut self) -> bool
        ensures outcome { FinishDoes None None self.old.flushed self.new.flushed
            self.old.faults self.new.faults result }
        ensures fault_range { self.new.faults < 2 ^ 64 }

        ensures fault_count { self.new.faults ≡ faults_after_finish self.old.faults result }
        ensures known_bytes { Keeps (W.contents self.old.writer) (W.contents self.new.writer) }
    {
        let finished = flush_retrying(&mut self.writer).is_ok();
        if finished {
            self.flushed = true;
        } else {
            count_failure(&mut self.faults);
        }
        finished
    }
}
