use geom_core::Memory;

/// Why an entry wasn't entered.
#[derive(Clone, Copy, Debug, PartialEq, Eq)]
pub enum StepFault {
    /// The rules don't allow the entry after this journal.
    Illegal,
    /// Memory ran out.
    Memory,
}

impl From<Memory> for StepFault {
    ghost use Rattle.std.specs.Prelude.{◌≡◌};
    ghost use Rattle.residency.specs.declared.faults.StepFault.TheVariants as step;

    ghost from_gives = { λ _ fault. fault ≡ step.Memory };

    fn from(_refused: Memory) -> StepFault {
        StepFault::Memory
    }
}

/// Why a journal has no pool.
#[derive(Clone, Copy, Debug, PartialEq, Eq)]
pub enum ReplayFault {
    /// An entry isn't allowed after those before it.
    Illegal {
        /// The place of the first such entry, from 0.
        entry: u64,
    },
    /// Memory ran out.
    Memory,
}

impl From<Memory> for ReplayFault {
    ghost use Rattle.std.specs.Prelude.{◌≡◌};
    ghost use Rattle.residency.specs.declared.faults.ReplayFault.TheVariants as replay;

    ghost from_gives = { λ _ fault. fault ≡ replay.Memory };

    fn from(_refused: Memory) -> ReplayFault {
        ReplayFault::Memory
    }
}
