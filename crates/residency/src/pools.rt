ghost use Rattle.std.specs.Prelude.{◌≡◌, ◌+◌, ◌<◌, ◌≤◌, ◌⊎◌, ◌↔◌, ◌++◌, ◌∷◌, [], ℕ, Bool, false, true, IfOk, OnOk, OnErr, None, Some, length, vec_capacity};
ghost use Rattle.journal.specs.Layout.{InBounds};
ghost use Rattle.pool_rules.specs.Events.{has_stop};
ghost use Rattle.pool_rules.specs.Next.{next_after};
ghost use Rattle.pool_rules.specs.Rules.{IsLegal, first_refused, is_allowed};
ghost use Rattle.pool_rules.specs.Sound.{IsSound};
ghost use Rattle.pool_rules.specs.State.{is_resident, residency, state_of};
ghost use Rattle.pool_rules.specs.Victim.{victim_after};
ghost use Rattle.residency.specs.History.{begun, entered, entered_in_spare, needs_no_memory, replayed, with_spare};
ghost use Rattle.residency.specs.Internal.Tables.{AreLegalTables};

use crate::events::{enter, enter_kept};
use crate::nexts::{next_in, victim_for};
use crate::rules::allows;
use crate::tables::{Tables, frame_id};
use crate::{Entry, Layout, Next, ReplayFault, StepFault};
use geom_core::{Memory, Nums};
use std::alloc::Global;
use std::marker::Model;

/// A pool of pages: its layout, the journal of all that happened, and for how many entries it has room in any
/// case. A contract sees these three.
///
/// Each entry of the journal was allowed after those before it, so that root pages stay resident, a page's
/// uppers outlast it, and no pinned page is evicted.
#[derive(Debug, Drop)]
pub struct Pool {
    layout: Layout,
    journal: Vec<Entry>,
    tables: Tables,
    /// For how many entries the journal keeps room, so that `step_kept` takes no memory.
    spare: usize,
}

impl Model for Pool {
    ghost use Rattle.residency.specs.History.{History};

    ghost Value = { History };

    ghost use Rattle.std.specs.Prelude.{vec_capacity};
    ghost use Rattle.residency.specs.Internal.Pools.{IsPool};

    ghost view = { λ pool. record {
      layout = pool.layout;
      journal = pool.journal.items;
      spare = pool.spare;
    } };

    ghost invariant = { λ pool. IsPool pool.layout pool.journal.items
        (vec_capacity pool.journal) pool.spare pool.tables };
}

/// Returns the tables of these entries if each is allowed after those before it.
fn tables_of(alloc: Global, layout: &Layout, entries: &[Entry]) -> Result<Tables, ReplayFault>
    requires { InBounds layout.now }
    ensures tables { IfOk result (AreLegalTables layout.now entries.now) }
    ensures illegal { (place : ℕ) → result ≡ Err (ReplayFault.Illegal place) →
        first_refused layout.now entries.now ≡ Some place }
{
    let mut tables = Tables::new(alloc, layout)?;
    for place in 0..entries.len() {
        let entry = &entries[place];
        if !allows(&tables, layout, entry) {
            return Err(ReplayFault::Illegal {
                entry: place as u64,
            });
        }
        enter(&mut tables, alloc, layout, &entries[..place], entry)?;
    }
    Ok(tables)
}

impl Pool {
    /// Returns a pool without entries: the root pages are resident. It has room for a Stop.
    pub fn begin(alloc: Global, layout: Layout) -> Result<Pool, Memory>
        requires { InBounds layout }
        ensures { IfOk result (λ pool. pool ≡ begun layout) }
    {
        let tables = Tables::new(alloc, &layout)?;
        Ok(Pool {
            layout,
            journal: Vec::with_capacity(alloc, 1)?,
            tables,
            spare: 1,
        })
    }

    /// Returns the pool after a whole journal, which it keeps. It has no room to spare.
    pub fn replay(alloc: Global, layout: Layout, entries: Vec<Entry>) -> Result<Pool, ReplayFault>
        requires { InBounds layout }
        ensures legal { OnOk result (IsLegal layout entries.items) }
        ensures replayed { IfOk result (λ pool. pool ≡ replayed layout entries.items) }

        // A legal journal is refused for want of memory only, any other at its first entry that is not allowed.
        ensures illegal { (place : ℕ) → result ≡ Err (ReplayFault.Illegal place) →
            first_refused layout entries.items ≡ Some place }
        ensures memory { IsLegal layout entries.items → OnErr result (result ≡ Err ReplayFault.Memory) }
        ensures refused { (place : ℕ) → first_refused layout entries.items ≡ Some place →
            (result ≡ Err (ReplayFault.Illegal place)) ⊎ (result ≡ Err ReplayFault.Memory) }
    {
        let tables = tables_of(alloc, &layout, &entries)?;
        Ok(Pool {
            layout,
            journal: entries,
            tables,
            spare: 0,
        })
    }

    /// Makes room for this many entries more of the kinds that `step_kept` enters. After Memory the pool is as
    /// before.
    pub fn reserve(&mut self, more: u32) -> Result<(), Memory>
        ensures spare { OnOk result (self.new ≡ with_spare more self.old) }
        ensures unchanged { OnErr result (self.new ≡ self.old) }
    {
        let spare = self.spare + more as usize;
        self.journal.reserve(spare)?;
        self.spare = spare;
        Ok(())
    }

    /// Whether the entry is allowed next.
    pub fn allows(&self, entry: &Entry) -> bool
        ensures { result ≡ is_allowed self.now.layout self.now.journal entry.now }
    {
        allows(&self.tables, &self.layout, entry)
    }

    /// Enters one entry. After an error the pool is as before.
    pub fn step(&mut self, alloc: Global, entry: Entry) -> Result<(), StepFault>
        ensures entered { OnOk result (self.new ≡ entered self.old entry) }

        // Any other refusal is want of memory.
        ensures illegal { (result ≡ Err StepFault.Illegal)
            ↔ (is_allowed self.old.layout self.old.journal entry ≡ false) }

        ensures unchanged { OnErr result (self.new ≡ self.old) }
    {
        if !allows(&self.tables, &self.layout, &entry) {
            return Err(StepFault::Illegal);
        }
        reserve(&mut self.journal, self.spare + 1)?;
        enter(&mut self.tables, alloc, &self.layout, &self.journal, &entry)?;
        self.journal.push_reserved(entry);
        Ok(())
    }

    /// Enters an Unpin, Install, Fail, Spoil, Starve or Stop in the room to spare. Takes no memory.
    pub fn step_kept(&mut self, entry: Entry)
        requires kind { needs_no_memory entry.what ≡ true }
        requires allowed { is_allowed self.old.layout self.old.journal entry ≡ true }
        requires spare { 1 ≤ self.old.spare }
        ensures { self.new ≡ entered_in_spare self.old entry }
    {
        enter_kept(&mut self.tables, &self.layout, &self.journal, &entry);
        self.journal.push_reserved(entry);
        self.spare -= 1;
    }

    /// Returns what a loader may do next, for the frame or for all frames.
    pub fn next_for(&self, frame: Option<u32>) -> Next
        ensures { result ≡ next_after self.now.layout self.now.journal frame }
    {
        next_in(&self.tables, &self.layout, frame_id(frame))
    }

    /// Returns the page that would be evicted for this one: of those that may be, the least recently used,
    /// of equals the one of greatest number.
    pub fn victim(&self, page: u32) -> Option<u32>
        requires { page < self.now.layout.pages }
        ensures { result ≡ victim_after self.now.layout self.now.journal page }
    {
        victim_for(&self.tables, &self.layout, page)
    }

    /// Whether the page is resident.
    pub fn is_resident(&self, page: u32) -> bool
        ensures { result ≡ is_resident (state_of self.now.layout self.now.journal) page }
    {
        self.tables.pages.get(page).resident
    }

    /// Returns the numbers of the resident pages, ascending.
    pub fn residency(&self, alloc: Global) -> Result<Nums, Memory>
        ensures { IfOk result (λ pages. pages ≡ residency self.now.layout self.now.journal) }
    {
        Ok(Nums::of(self.tables.pages.residents(alloc)?))
    }

    /// Whether the journal has a Stop.
    pub fn is_stopped(&self) -> bool
        ensures { result ≡ has_stop self.now.journal }
    {
        self.tables.stopped
    }

    /// Returns the layout.
    pub fn layout(&self) -> &Layout
        ensures layout { result.now ≡ self.now.layout }
        ensures bounded { InBounds self.now.layout }
    {
        &self.layout
    }

    /// Returns the journal, the earliest entry first. Each was allowed after those before it.
    pub fn journal(&self) -> &[Entry]
        ensures entries { result.now ≡ self.now.journal }
        ensures legal { IsLegal self.now.layout self.now.journal }
        ensures sound { IsSound self.now.layout (state_of self.now.layout self.now.journal) }
    {
        &self.journal
    }

    /// Returns the journal, the earliest entry first, and gives the pool up. Takes no memory.
    pub fn into_journal(self) -> Vec<Entry>
        ensures { result.items ≡ self.journal }
    {
        let Pool { journal, .. } = self;
        journal
    }
}

/// Makes room for this many entries more.
fn reserve(journal: &mut Vec<Entry>, more: usize) -> Result<(), Memory>
    ensures items { journal.new.items ≡ journal.old.items }
    ensures room { OnOk result (length journal.new.items + more ≤ vec_capacity journal.new) }
    ensures capacity { vec_capacity journal.old ≤ vec_capacity journal.new }
{
    Ok(journal.reserve(more)?)
}
