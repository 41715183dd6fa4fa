//! A yardstick for tests, and no part of the product: the two squares, a small sound DAG.
//!
//! ```text
//!   D-------C   D'------C'      square 1 has the corners A (0, 0, 0), B (8, 0, 0), C (8, 8, 0), D (0, 8, 0) and
//!   | \   / |   | \   / |       the middle M (4, 4, 0); square 2 is square 1 moved by 16 in x
//!   |   M   |   |   M'  |
//!   | /   \ |   | /   \ |       fine: four triangles round the middle, a leaf of groups 1 and 2
//!   A-------B   A'------B'      coarse: the two triangles that are left once M is moved to A, members of group 0
//! ```
//!
//! | Cluster | Home | Made by | Triangles, each with its source |
//! |---|---|---|---|
//! | 0 | 0 | 1 | (B, C, A) 1, (C, D, A) 2 |
//! | 1 | 0 | 2 | the same of square 2: 5, 6 |
//! | 2 | 1 | | (A, B, M) 0, (B, C, M) 1, (C, D, M) 2, (D, A, M) 3 |
//! | 3 | 2 | | the same of square 2: 4 to 7 |
//!
//! Group 0 is terminal and on page 0, the root page; groups 1 and 2 have error 4 and are on pages 1 and 2. The same
//! value is written out in `dag_core`'s worked examples, and the contracts here name it.
#![tactic(auto)]

mod squares;
#[cfg(test)]
mod tests;

pub use squares::{two_squares, two_squares_heads};
