//! The bytes of a page file, both ways: its header, its directory and its pages.
//!
//! A page has the triangles of its groups' clusters, 40 bytes each, and then zeros up to `PAGE_BYTES`. The
//! directory has a DAG's groups and clusters as records of one size, and a SHA-256 digest of each page. The header
//! has the counts, and a digest of them and of the directory. All numbers are little-endian; those of points are
//! two's complement. What each part spells is `specs/Spelling.antt`, what bytes read as `specs/Reading.antt`, and the
//! rules that bytes may break `specs/Breaks.antt`.
//!
//! Each value has one spelling, and no two texts read as one value. A decoder answers the first break of the
//! grammar; bytes without a break are what the decoded value spells.
//!
//! On `Memory` nothing is kept.
#![tactic(auto)]

mod breaks;
mod decode_pages;
mod directories;
mod directory_codec;
mod encode_pages;
mod first_breaks;
mod headers;
mod kinds;
pub mod laws;
mod numbers;
mod page_clusters;
mod page_indexes;
mod pages;
mod places;
mod record_rules;
mod records;
mod rules;
pub mod sizes;
mod tables;
#[cfg(test)]
mod tests;
mod walk;

pub use breaks::{Break, Refused};
pub use decode_pages::{decode_page, decode_page_by};
pub use directories::{Digests, Directory};
pub use directory_codec::{decode_directory, encode_directory};
pub use encode_pages::{encode_page, encode_page_by};
pub use headers::{Header, decode_header, encode_header};
pub use page_indexes::PageIndex;
pub use pages::{Page, PageCluster, PageClusters};
pub use places::{digest_of, directory_digest, page_at};
