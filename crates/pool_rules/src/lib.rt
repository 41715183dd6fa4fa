//! The rules of the page pool, as definitions over its journal, and the laws that follow from them.
//!
//! The journal is an event log, and the pool's state is a fold of it (`specs/State`): which pages are
//! resident, loading, pinned and wanted. What a loader may do next (`specs/Next`), which page is evicted
//! (`specs/Victim`, the least recently used) and which entry is allowed next (`specs/Rules`) are functions
//! of that state. `specs/Settled` says when a frame that waits for pages has waited long enough.
//! The crate has no code that runs: `residency` computes what is defined here.
#![tactic(auto)]

pub mod laws;
mod next_load;
mod want;

pub use next_load::Next;
pub use want::Want;
