ghost use Rattle.std.specs.Prelude.{◌≡◌};
ghost use Rattle.std.specs.Bool.{OnTrue};
ghost use Rattle.span_io.specs.Faults.{Rose};
ghost use Rattle.span_io.specs.Plans.{Plan, plan_of, next_fails, called};

use crate::faults::count_failure;
use std::marker::Model;

/// Which calls are to fail, and how many were made and have failed.
#[derive(Drop)]
pub struct FailurePlan {
    failing: Vec<u64>,
    made: u64,
    faults: u64,
}

impl Model for FailurePlan {
    ghost Value = { Plan };

    ghost view = { λ plan. record {
      failing = plan.failing.items;
      made = plan.made;
      faults = plan.faults;
    } };
}

impl FailurePlan {
    /// The calls with these numbers, from 1, are to fail.
    pub fn of(failing: Vec<u64>) -> FailurePlan
        ensures { result ≡ plan_of failing.items }
    {
        FailurePlan {
            failing,
            made: 0,
            faults: 0,
        }
    }

    /// Whether the next call is to fail.
    pub fn next_fails(&self) -> bool
        ensures { result ≡ next_fails self.now }
    {
        self.failing.contains(&self.made.saturating_add(1))
    }

    /// Counts one more call, and a fault where it fails.
    pub fn count_call(&mut self, fails: bool)
        ensures call { self.new ≡ called self.old fails }
        ensures rose { OnTrue fails (Rose self.old.faults self.new.faults) }
    {
        self.made = self.made.saturating_add(1);
        if fails {
            count_failure(&mut self.faults);
        }
    }
}
