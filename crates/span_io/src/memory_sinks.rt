ghost use Rattle.std.specs.Prelude.{◌≡◌, ◌≤◌, ◌<◌, ◌+◌, ◌^◌, Some, [], false, not, length, vec_len, vec_capacity, IfOk};
ghost use Rattle.span_io.specs.Writes.{WriteDoes, FinishDoes};
ghost use Rattle.span_io.specs.Plans.{plan_of, next_fails};
ghost use Rattle.span_io.specs.MemorySinks.{SinkState, write_answer, after_write, after_finish};

use crate::failure_plan::FailurePlan;
use crate::{Sink, Took};
use geom_core::Memory;
use std::alloc::Global;
use std::marker::Model;

/// A sink into memory: what was written is known, and it fails exactly in the planned calls or when
/// its room is used up.
///
/// One write takes as many bytes as are offered, `most` and the room left allow. The room is taken
/// when the sink is made, so no write takes memory.
#[derive(Drop)]
pub struct MemorySink {
    bytes: Vec<u8>,
    flushed: bool,
    room: u64,
    most: u32,
    plan: FailurePlan,
}

impl Model for MemorySink {
    ghost Value = { SinkState };

    ghost view = { λ sink. record {
      written = sink.bytes.items;
      flushed = sink.flushed;
      room = sink.room;
      most = sink.most;
      plan = sink.plan;
    } };

    ghost invariant = { λ sink.
        (vec_len sink.bytes + sink.room ≤ vec_capacity sink.bytes)
        × (1 ≤ sink.most) × (sink.plan.faults < 2 ^ 64) };
}

impl MemorySink {
    /// An empty sink with room for `room` bytes, of which one write takes at most `most`. The calls
    /// whose numbers, from 1, are in `failing` fail; a `finish` is a call as a write is. It isn't
    /// flushed yet.
    pub fn of(alloc: Global, room: u64, most: u32, failing: Vec<u64>) -> Result<MemorySink, Memory>
        requires room_fits { room ≤ 2 ^ 32 }
        requires most_fits { 1 ≤ most }
        ensures { IfOk result (λ sink. sink ≡ record {
          written = [];
          flushed = false;
          room = room;
          most = most;
          plan = plan_of failing.items;
        }) }
    {
        Ok(MemorySink {
            bytes: Vec::with_capacity(alloc, room as usize)?,
            flushed: false,
            room,
            most,
            plan: FailurePlan::of(failing),
        })
    }

    /// What was written. Takes no memory.
    pub fn into_bytes(self) -> Vec<u8>
        ensures { result.items ≡ self.written }
    {
        let MemorySink { bytes, .. } = self;
        bytes
    }
}

impl Sink for MemorySink {
    ghost written = { λ sink. Some sink.written };

    ghost flushed = { λ sink. sink.flushed };

    ghost faults = { λ sink. sink.plan.faults };

    fn write_some(&mut self, from: &[u8]) -> Took
        requires { 0 < length from.now }

        ensures outcome { WriteDoes (Some self.old.written) (Some self.new.written)
            self.old.flushed self.new.flushed self.old.plan.faults self.new.plan.faults
            from.now result }
        ensures fault_range { self.new.plan.faults < 2 ^ 64 }

        ensures answer { result ≡ write_answer self.old from.now }
        ensures state { self.new ≡ after_write self.old from.now }
    {
        let fails = self.plan.next_fails() || self.room == 0;
        self.plan.count_call(fails);
        if fails {
            return Took::Failed;
        }
        let count = from.len().min(self.most as usize).min(self.room as usize);
        // The vector has room for them, so this can't be refused.
        let _ = self.bytes.extend_from_slice(&from[..count]);
        self.room -= count as u64;
        self.flushed = false;
        Took::Bytes(count)
    }

    fn finish(&mut self) -> bool
        ensures outcome { FinishDoes (Some self.old.written) (Some self.new.written)
            self.old.flushed self.new.flushed self.old.plan.faults self.new.plan.faults result }
        ensures fault_range { self.new.plan.faults < 2 ^ 64 }

        ensures answer { result ≡ not (next_fails self.old.plan) }
        ensures state { self.new ≡ after_finish self.old }
    {
        let fails = self.plan.next_fails();
        self.plan.count_call(fails);
        if !fails {
            self.flushed = true;
        }
        !fails
    }
}
