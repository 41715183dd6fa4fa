//! The event log of a page pool: its layout, its entries, and the text that spells them.
//!
//! A layout states the pages and which page depends on which; an entry states what one maker did. The
//! grammar of the text is `specs/Grammar`, its printing `specs/Spelling`: [`read_journal`] reads a text, and
//! what is printed reads back. The state of a pool after a journal, and which entries are allowed, are
//! defined in the crate `pool_rules`.
#![tactic(auto)]

mod bounds;
mod entries;
mod fields;
mod journal_builder;
mod journals;
mod layouts;
mod lines;
mod numbers;
mod page_lists;
mod pages;
mod reading;
mod round_trips;

pub use entries::{Entries, Entry, Spoilt, What};
pub use journals::{Journal, JournalFault};
pub use layouts::{Layout, Uppers};
pub use pages::{all_below, ascends};
pub use reading::read_journal;
pub use round_trips::printed_journal_reads_back;
