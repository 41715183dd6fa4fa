ghost use Rattle.std.specs.Prelude.{◌≡◌, ◌+◌, ◌<◌, IfOk, OnOk, length, map};
ghost use Rattle.std.specs.List.{range_with_len};
ghost use Rattle.dag_core.specs.Members.{group_at, home};
ghost use Rattle.dag_core.specs.Ranges.{IsInRange};
ghost use Rattle.dag_core.specs.Rules.{KeepsRulesBelow};
ghost use Rattle.dag_core.specs.Internal.Tables.{homes_of};

use crate::heads::Heads;
use geom_core::Memory;
use std::alloc::Global;

impl Heads {
    /// Returns the home of each cluster.
    pub(crate) fn homes(&self, alloc: Global) -> Result<Vec<u32>, Memory>
        requires range { IsInRange self.now }
        requires members { KeepsRulesBelow 2 self.now }
        ensures homes { IfOk result (λ homes. homes.items ≡ homes_of self.now) }
    {
        let mut homes = Vec::with_capacity(alloc, self.clusters.as_slice().len())?;
        for g in 0..self.groups.as_slice().len() {
            self.push_home(&mut homes, g)?;
        }
        Ok(homes)
    }

    /// Appends a group's number for each of its members; the homes of the clusters before these are there.
    fn push_home(&self, homes: &mut Vec<u32>, g: usize) -> Result<(), Memory>
        requires range { IsInRange self.now }
        requires members { KeepsRulesBelow 2 self.now }
        requires group { g < length self.now.groups }
        requires before { homes.old.items ≡ map (home self.now) (range_with_len 0 (group_at self.now g).first) }
        ensures homes { OnOk result (homes.new.items ≡
            map (home self.now) (range_with_len 0 ((group_at self.now g).first + (group_at self.now g).count))) }
    {
        for _member in 0..self.group(g).count {
            homes.push(g as u32)?;
        }
        Ok(())
    }
}
