ghost use Rattle.std.specs.Prelude.{◌≡◌, ◌≤◌, ◌<◌, ◌^◌, Some, length, drop};
ghost use Rattle.span_io.specs.Reads.{ReadDoes};
ghost use Rattle.span_io.specs.Plans.{plan_of};
ghost use Rattle.span_io.specs.MemorySources.{SourceState, read_answer, after_read};

use crate::failure_plan::FailurePlan;
use crate::{Got, Source};
use std::marker::Model;

/// A source over bytes in memory: they are known, and it fails exactly in the planned calls.
///
/// One read gives as many bytes as the buffer, `most` and the bytes left allow.
#[derive(Drop)]
pub struct MemorySource {
    bytes: Vec<u8>,
    at: usize,
    most: u32,
    plan: FailurePlan,
}

impl Model for MemorySource {
    ghost Value = { SourceState };

    ghost view = { λ source. record {
      left = drop source.at source.bytes.items;
      most = source.most;
      plan = source.plan;
    } };

    ghost invariant = { λ source. (source.at ≤ length source.bytes.items)
        × (1 ≤ source.most) × (source.plan.faults < 2 ^ 64) };
}

impl MemorySource {
    /// A source of these bytes, which gives at most `most` of them in one read. The reads whose
    /// numbers, from 1, are in `failing` fail.
    pub fn of(bytes: Vec<u8>, most: u32, failing: Vec<u64>) -> MemorySource
        requires { 1 ≤ most }
        ensures { result ≡ record {
          left = bytes.items;
          most = most;
          plan = plan_of failing.items;
        } }
    {
        MemorySource {
            bytes,
            at: 0,
            most,
            plan: FailurePlan::of(failing),
        }
    }
}

impl Source for MemorySource {
    ghost left = { λ source. Some source.left };

    ghost faults = { λ source. source.plan.faults };

    fn read_some(&mut self, into: &mut [u8]) -> Got
        requires { 0 < length into.old }

        ensures outcome { ReadDoes (Some self.old.left) (Some self.new.left)
            self.old.plan.faults self.new.plan.faults into.new result }
        ensures fault_range { self.new.plan.faults < 2 ^ 64 }

        ensures answer { result ≡ read_answer self.old (length into.old) }
        ensures state { self.new ≡ after_read self.old (length into.old) }
    {
        let fails = self.plan.next_fails();
        self.plan.count_call(fails);
        if fails {
            return Got::Failed;
        }
        let left = self.bytes.len() - self.at;
        if left == 0 {
            return Got::End;
        }
        let count = into.len().min(self.most as usize).min(left);
        into[..count].copy_from_slice(&self.bytes[self.at..self.at + count]);
        self.at += count;
        Got::Bytes(count)
    }
}
