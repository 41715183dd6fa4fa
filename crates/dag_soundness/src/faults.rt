ghost use Rattle.std.specs.Prelude.{◌≡◌};
ghost use Rattle.dag_soundness.specs.declared.faults.TriangleFault.TheVariants as faults;

use geom_core::Memory;

/// A rule of a DAG's triangles that is broken, and where.
#[derive(Clone, Copy, Debug, PartialEq, Eq)]
pub struct RuleBreak {
    /// The rule's number: 6 edge sums, 7 sources, 8 corners.
    pub rule: u8,
    /// The least index at which the rule is broken: of a group for rule 6, of a source triangle for rule 7, of a
    /// cluster for rule 8.
    pub index: u32,
}

/// Why a DAG is not known to be sound.
#[derive(Clone, Copy, Debug, PartialEq, Eq)]
pub enum TriangleFault {
    /// The least rule that is broken, at its least index.
    Broken(RuleBreak),
    /// Out of memory.
    Memory,
}

impl From<Memory> for TriangleFault {
    ghost from_gives = { λ shortage fault. fault ≡ faults.Memory };

    fn from(_shortage: Memory) -> TriangleFault {
        TriangleFault::Memory
    }
}
