//! The commands of the tool, over any source and any sink of bytes.
//!
//! [`geode`] reads the words of a command line, does what they ask for, and returns what was done or a fault.
//! What each command reads and writes is defined in `specs/`. The program `geode` connects this call to
//! standard input and output.
#![tactic(auto)]

mod audit_command;
#[cfg(test)]
mod audit_tests;
mod build_command;
#[cfg(test)]
mod build_tests;
mod commands;
mod draw_command;
mod draw_mesh;
mod faults;
mod make_command;
#[cfg(test)]
mod make_tests;
mod named_files;
mod open_fault_texts;
mod program;
#[cfg(test)]
mod tests;
mod tool;
mod verify_command;
#[cfg(test)]
mod verify_tests;
mod verify_words;
mod write_output;

pub use commands::{BoxRequest, Command, DrawRequest};
pub use faults::{Done, Fault, UsageKind};
pub use named_files::{Wanted, places};
pub use obj_source::ObjWhy;
pub use page_file::OpenFault;
pub use program::{call, exit_status, places_of};
pub use tool::geode;
