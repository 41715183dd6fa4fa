use geom_core::Memory;

/// Why heads are refused.
#[derive(Clone, Copy, Debug, PartialEq, Eq)]
pub enum CheckFault {
    /// The first rule that is broken, at the first index where it is.
    Rule {
        /// The rule's number: 1 to 5.
        number: u8,
        /// The group for rules 1 and 3, or the number of groups if the counts of rule 1 do not add up to the
        /// number of clusters; the cluster for rules 2 and 4; the page for rule 5.
        index: u32,
    },
    /// Out of memory.
    Memory,
}

impl From<Memory> for CheckFault {
    ghost use Rattle.std.specs.Prelude.{◌≡◌};
    ghost use Rattle.dag_core.specs.declared.faults.CheckFault.TheVariants as faults;

    ghost from_gives = { λ _ fault. fault ≡ faults.Memory };

    fn from(_refused: Memory) -> CheckFault {
        CheckFault::Memory
    }
}
