ghost use Rattle.std.specs.Prelude.{◌≡◌};
ghost use Rattle.page_file.specs.declared.open_faults.OpenFault.TheVariants as opens;
ghost use Rattle.page_file.specs.VerifyFaults.{fault_of};
ghost use Rattle.page_file.specs.declared.verify_faults.VerifyFault.TheVariants as faults;

use crate::open_faults::OpenFault;
use dag_soundness::{RuleBreak, TriangleFault};
use geom_core::Memory;

/// Why a page file is not known to be sound, in order of precedence. A failed read and a lack of memory are those of
/// `OpenFault`: each has one name, whether it comes while pages are opened or after that.
#[derive(Clone, Copy, Debug, PartialEq, Eq)]
pub enum VerifyFault {
    /// The file did not open with all its pages, or memory ran out, perhaps later.
    Open(OpenFault),
    /// The file opened, and a rule of its triangles is broken; this is the first break.
    Broken {
        /// The rule's number: 6 edge sums, 7 sources, 8 corners.
        rule: u8,
        /// The least index at which the rule is broken: of a group for rule 6, of a source triangle for rule 7, of a
        /// cluster for rule 8.
        index: u32,
    },
}

impl From<OpenFault> for VerifyFault {
    ghost from_gives = { λ opened fault. fault ≡ faults.Open opened };

    fn from(fault: OpenFault) -> VerifyFault {
        VerifyFault::Open(fault)
    }
}

impl From<Memory> for VerifyFault {
    ghost from_gives = { λ shortage fault. fault ≡ faults.Open opens.Memory };

    fn from(_shortage: Memory) -> VerifyFault {
        VerifyFault::Open(OpenFault::Memory)
    }
}

impl From<TriangleFault> for VerifyFault {
    ghost from_gives = { λ fault given. given ≡ fault_of fault };

    fn from(fault: TriangleFault) -> VerifyFault {
        match fault {
            TriangleFault::Broken(RuleBreak { rule, index }) => VerifyFault::Broken { rule, index },
            TriangleFault::Memory => VerifyFault::Open(OpenFault::Memory),
        }
    }
}
