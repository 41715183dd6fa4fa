//! The page pool's rules as a pure machine over a journal, the list of all that the pool did.
//!
//! What is resident, being loaded, pinned and wanted is a fold of the journal, and so is which entry is
//! allowed next; `pool_rules` has the folds and the table of entries. [`Pool`] steps through a journal,
//! says what a loader may take next, and refuses what the table doesn't allow.
//!
//! An event is matched in two places: `rules` (what is allowed) and `events` (what each kind of entry
//! changes, by the functions of `changes`). The tables that the machine reads and changes are those of the
//! crate `pool_tables`.
//!
//! Layouts, entries and the text of a journal are those of the crate `journal`, and are passed on under
//! their names.
#![tactic(auto)]

mod changes;
mod events;
mod faults;
mod nexts;
#[cfg(test)]
mod offer_tests;
mod page_events;
#[cfg(test)]
mod pool_tests;
mod pools;
mod rules;
mod tables;

pub use faults::{ReplayFault, StepFault};
pub use journal::{
    Entries, Entry, Journal, JournalFault, Layout, Spoilt, Uppers, What,
    printed_journal_reads_back, read_journal,
};
pub use pool_rules::{Next, laws};
pub use pools::Pool;
