//! Tests of the page file's bytes on the two squares, and no part of the product.
//!
//! The header, the directory and what is in the pages are written out in the tests, as an independent program spelt
//! them. Each rule of the grammar is broken in them, at both sides of its bound. `docs/formats.md` has the file byte by
//! byte.
#![tactic(auto)]

#[cfg(test)]
mod directory_rows;
#[cfg(test)]
mod header_rows;
#[cfg(test)]
mod page_rows;
#[cfg(test)]
mod patches;
