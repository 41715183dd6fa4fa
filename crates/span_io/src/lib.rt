//! Bytes in and out: sources that give bytes, sinks that take them, and the causes of what fails.
//!
//! A call may give or take fewer bytes than it is offered, and it may fail; it answers that it failed
//! exactly where it counted a fault. If the bytes of a source or a sink are known, the contracts say
//! which ones moved. The bytes of the forms in memory are known, and they fail exactly in the
//! planned calls; those of the forms over the standard library's readers and writers are not known, and each
//! failure is counted.
//!
//! `put_all` writes a whole list of bytes; `read_into` feeds the bytes of a source to a consumer, and
//! `read_text` gathers them. No other loop over reads or writes is needed. A source of another kind
//! counts its failures by `count_failure`, so that `Rose` means the same for each; it can plan them by
//! `FailurePlan` and retry interrupted calls by `read_retrying`.
#![tactic(auto)]

mod consumers;
mod failure_plan;
mod faults;
mod memory_sinks;
mod memory_sources;
mod read_loop;
mod retries;
mod sinks;
mod sources;
mod std_sinks;
mod std_sources;
mod texts;
mod write_all;

pub use consumers::{Consumer, Fed};
pub use failure_plan::FailurePlan;
pub use faults::count_failure;
pub use memory_sinks::MemorySink;
pub use memory_sources::MemorySource;
pub use read_loop::{ReadEnd, read_into};
pub use retries::{flush_retrying, read_retrying, write_retrying};
pub use sinks::{Sink, Took};
pub use sources::{Got, Source};
pub use std_sinks::{StdSink, took_from};
pub use std_sources::{StdSource, got_from};
pub use texts::{TextFault, read_text};
pub use write_all::put_all;

#[cfg(test)]
mod tests;
