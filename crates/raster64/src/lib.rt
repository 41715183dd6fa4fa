//! Triangles on the screen: the pixels that a triangle covers, and the 64-bit word that each gets.
//!
//! Coverage is decided by nonzero winding over half-open crossings, so two triangles on the two sides of a
//! shared edge share no pixel. Each row of a triangle is one half-open span of columns between two crossings,
//! and the depth, interpolated by edge functions (Pineda 1988), is stepped along it without error. The rules are
//! those of `geom_core`, and [`for_each_word`] keeps them for one triangle, without memory.
#![tactic(auto)]

mod depths;
mod edges;
pub mod laws;
mod ranges;
mod raster;
mod reach;
#[cfg(test)]
mod recorder;
mod sinks;
mod spans;
#[cfg(test)]
mod tests;
mod wide;
mod words;

pub use edges::crossing;
pub use sinks::PixelSink;
pub use words::{for_each_word, pack};
