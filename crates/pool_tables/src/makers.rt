ghost use Rattle.std.specs.Prelude.{◌≡◌, ◌==◌, ◌||◌, [], ℕ, OnErr, OnOk, if◌then◌else◌, true};
ghost use Rattle.pool_tables.specs.MakerItems.{fault_of, has_maker};

use crate::page_record::MakerId;
use geom_core::Memory;
use std::alloc::Global;
use std::collections::BTreeMap;
use std::marker::Model;

/// Each maker's count of faults after its last Fail. A Take makes the item, so that a Fail takes no memory. A
/// contract sees the items by number.
#[derive(Debug, Drop)]
pub struct MakerTable {
    /// By number.
    faults: BTreeMap<u32, u64>,
}

impl Model for MakerTable {
    ghost use Rattle.std.specs.Prelude.{List, ℕ};

    ghost Value = { List (ℕ × ℕ) };

    ghost view = { λ table. table.faults.entries };
}

impl MakerTable {
    /// Returns a table without makers. Takes no memory.
    pub fn new(alloc: Global) -> MakerTable
        ensures { result ≡ [] }
    {
        MakerTable {
            faults: BTreeMap::new(alloc),
        }
    }

    /// Returns the maker's count of faults after its last Fail; 0 if it has none.
    pub fn last_fault(&self, maker: MakerId) -> u64
        ensures { result ≡ fault_of self.now maker.0 }
    {
        match self.faults.get(&maker.0) {
            Some(faults) => *faults,
            None => 0,
        }
    }

    /// Makes the maker's item if it has none.
    pub fn begin(&mut self, maker: MakerId) -> Result<(), Memory>
        ensures makers { OnOk result ((n : ℕ) →
            has_maker self.new n ≡ ((maker.0 == n) || has_maker self.old n)) }
        ensures faults { (n : ℕ) → fault_of self.new n ≡ fault_of self.old n }
        ensures unchanged { OnErr result (self.new ≡ self.old) }
    {
        if !self.faults.contains_key(&maker.0) {
            self.faults.insert(maker.0, 0)?;
        }
        Ok(())
    }

    /// Records a Fail of a maker that has an item, which leaves this count of faults.
    pub fn fail(&mut self, maker: MakerId, after: u64)
        requires { has_maker self.old maker.0 ≡ true }
        ensures makers { (n : ℕ) → has_maker self.new n ≡ has_maker self.old n }
        ensures faults { (n : ℕ) → fault_of self.new n
            ≡ (if maker.0 == n then after else fault_of self.old n) }
    {
        if let Some(faults) = self.faults.get_mut(&maker.0) {
            *faults = after;
        }
    }
}
