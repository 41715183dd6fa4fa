//! Camera scripts: the shots that a JSON text describes, or its first fault.
//!
//! A script is an object with exactly two members: `size`, an array of a width and a height, and `frames`, an
//! array of shots. [`read_script`] reads it by `serde_json`'s value (RFC 8259); the definition is
//! `specs/Script`. The ranges of a camera's numbers are those of `view_camera`.
#![tactic(auto)]

mod faults;
mod frames;
mod members;
mod reading;
mod scripts;
mod sizes;
#[cfg(test)]
mod tests;

pub use faults::{ScriptFault, ScriptWhy};
pub use reading::read_script;
pub use scripts::{MAX_PRINTS, MAX_SHOTS, Script, Shot, Shots};
