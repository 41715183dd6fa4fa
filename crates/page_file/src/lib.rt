//! Page files: a DAG is laid out on pages and written as a file; a file is opened over a page source, and what was
//! opened is known to keep its rules; and a file is verified: it is known to be that of a sound DAG.
//!
//! The pages rule is `specs/PagesRule.antt`. The order of an opening is `specs/Opening.antt`, and that of verifying
//! `specs/Verifying.antt`; what each part of a file has to keep `specs/Judging.antt`; what is known of an opened file
//! `specs/IsOpened.antt`, and of a verified one `specs/SoundFiles.antt`. The bytes themselves are `page_codec`'s.
//!
//! On `Memory` nothing is kept.
#![tactic(auto)]

mod cluster_tris;
#[cfg(test)]
mod damage_tests;
mod directories;
mod fillings;
mod headers;
pub mod laws;
mod laying;
pub mod layout_laws;
mod open;
mod open_faults;
mod opened;
mod page_writes;
mod pages;
mod reads;
#[cfg(test)]
mod tests;
mod verify;
mod verify_faults;
#[cfg(test)]
mod verify_tests;
#[cfg(test)]
mod write_tests;
mod writing;

pub use laying::lay_out;
pub use open::open_pages;
pub use open_faults::OpenFault;
pub use opened::{Opened, Pages};
pub use page_writes::PageWrite;
pub use verify::verify_pages;
pub use verify_faults::VerifyFault;
pub use writing::write_pages;
