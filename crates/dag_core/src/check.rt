ghost use Rattle.std.specs.Prelude.{◌≡◌, ℕ, OnOk, IfErr, Err, Option};
ghost use Rattle.dag_core.specs.declared.faults.CheckFault.TheVariants.{Memory, Rule};
ghost use Rattle.dag_core.specs.Ranges.{IsInRange};
ghost use Rattle.dag_core.specs.Rules.{Checked, IsFirstBreak};
ghost use Rattle.dag_core.specs.Internal.FirstPlaces.{refusal_of};

use crate::faults::CheckFault;
use crate::heads::Heads;
use std::alloc::Global;

impl Heads {
    /// Checks the five rules of a DAG's heads, in order.
    ///
    /// The rules speak of the heads alone: nothing is known of triangles. Time and memory are in proportion to
    /// the numbers of groups, clusters and pages.
    pub fn check(&self, alloc: Global) -> Result<(), CheckFault>
        requires range { IsInRange self.now }
        ensures checked { OnOk result (Checked self.now) }
        ensures first_break { (number index : ℕ) → result ≡ Err (Rule number index) →
            IsFirstBreak self.now number index }
        ensures complete { Checked self.now → IfErr result (λ fault. fault ≡ Memory) }
    {
        refuse(1, self.members_break())?;
        let homes = self.homes(alloc)?;
        refuse(2, self.maker_break(&homes))?;
        let makers = self.makers(alloc)?;
        refuse(3, self.terminal_break(&makers))?;
        refuse(4, self.bound_break(&homes))?;
        let tris = self.page_tris(alloc, &homes)?;
        let terminal = self.terminal_pages(alloc)?;
        let later = self.later_uppers(alloc, &homes)?;
        refuse(5, self.page_break(&tris, &terminal, &later))
    }
}

/// Refuses the heads if the rule of this number is broken at some place.
fn refuse(number: u8, place: Option<u32>) -> Result<(), CheckFault>
    ensures { result ≡ refusal_of number place }
{
    match place {
        None => Ok(()),
        Some(index) => Err(CheckFault::Rule { number, index }),
    }
}
