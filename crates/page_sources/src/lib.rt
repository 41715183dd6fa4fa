//! Page sources: what bytes can be read from at any place, as a file on a disk.
//!
//! A read gives all the bytes that it is asked for, or says how many there are from its place on, or failed; it failed
//! exactly where it counted a fault, as a source of `span_io` does. If the bytes of a source are known, the contracts
//! say which ones were read. The bytes of a source in memory are known, and it fails exactly in the planned reads;
//! those of a file are not known, and each failure is counted once. A box of a source answers as what is in it.
//!
//! No read allocates.
#![tactic(auto)]

mod boxes;
mod file_pages;
mod memory_pages;
mod page_sources;
#[cfg(test)]
mod tests;

pub use file_pages::FilePages;
pub use memory_pages::MemoryPages;
pub use page_sources::{PageGot, PageSource};
