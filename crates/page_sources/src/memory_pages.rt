ghost use Rattle.std.specs.Prelude.{◌≡◌, ◌<◌, ◌^◌, Some, length, take};
ghost use Rattle.span_io.specs.Plans.{plan_of};
ghost use Rattle.page_sources.specs.PageReads.{PageReadDoes};
ghost use Rattle.page_sources.specs.MemoryForms.{MemoryState, got_of, memory_answer, after_read};

use crate::{PageGot, PageSource};
use span_io::{FailurePlan, count_failure};
use std::marker::Model;

/// A page source over bytes in memory: they are known, and it fails exactly in the planned reads.
#[derive(Drop)]
pub struct MemoryPages {
    bytes: Vec<u8>,
    plan: FailurePlan,
    /// The plan's count, which the plan doesn't tell.
    faults: u64,
}

impl Model for MemoryPages {
    ghost Value = { MemoryState };

    ghost view = { λ source. record { bytes = source.bytes.items; plan = source.plan } };

    ghost invariant = { λ source. (source.faults ≡ source.plan.faults) × (source.faults < 2 ^ 64) };
}

impl MemoryPages {
    /// A source of these bytes. The reads whose numbers, from 1, are in `failing` fail.
    pub fn of(bytes: Vec<u8>, failing: Vec<u64>) -> MemoryPages
        ensures { result ≡ record { bytes = bytes.items; plan = plan_of failing.items } }
    {
        MemoryPages {
            bytes,
            plan: FailurePlan::of(failing),
            faults: 0,
        }
    }
}

/// Copies the first of these bytes into the buffer, as many as it takes.
fn copy_front(from: &[u8], into: &mut [u8]) -> PageGot
    ensures answer { result ≡ got_of (length from.now) (length into.old) }
    ensures bytes { take (length from.now) into.new ≡ take (length into.new) from.now }
{
    if into.len() <= from.len() {
        into.copy_from_slice(&from[..into.len()]);
        PageGot::All
    } else {
        into[..from.len()].copy_from_slice(from);
        PageGot::Short(from.len())
    }
}

impl PageSource for MemoryPages {
    ghost holds = { λ source. Some source.bytes };

    ghost faults = { λ source. source.plan.faults };

    fn read(&mut self, at: u64, into: &mut [u8]) -> PageGot
        ensures outcome { PageReadDoes (Some self.old.bytes) self.old.plan.faults
            self.new.plan.faults at into.new result }
        ensures unchanged { Some self.new.bytes ≡ Some self.old.bytes }
        ensures fault_range { self.new.plan.faults < 2 ^ 64 }

        ensures answer { result ≡ memory_answer self.old at (length into.old) }
        ensures state { self.new ≡ after_read self.old }
    {
        let fails = self.plan.next_fails();
        self.plan.count_call(fails);
        if fails {
            count_failure(&mut self.faults);
            return PageGot::Failed;
        }
        let start = at.min(self.bytes.len() as u64) as usize;
        copy_front(&self.bytes[start..], into)
    }

    fn faults(&self) -> u64
        ensures fault_count { result ≡ self.now.plan.faults }
    {
        self.faults
    }
}
