ghost use Rattle.std.specs.Prelude.{◌≡◌, length};
ghost use Rattle.page_codec.specs.Reading.{counts_from, header_of};
ghost use Rattle.page_codec.specs.Spelling.{counts_bytes, header_bytes};

use crate::numbers::{read_numbers, write_numbers};
use crate::sizes::{COUNTS_END, HEADER_BYTES};
use dag_core::Counts;
use geom_core::Digest32;

/// The header of a page file, after the eight bytes `GEOPAGES`.
#[derive(Clone, Copy, Debug, PartialEq, Eq)]
pub struct Header {
    /// The version of the file's format.
    pub version: u32,
    /// The counts of the file's DAG.
    pub counts: Counts,
    /// The SHA-256 digest of the version, the counts and the directory.
    pub digest: Digest32,
}

/// Returns the 24 bytes of the version and the counts.
#[tactic(auto, unfolding(crate::specs::Spelling::counts_bytes))]
pub(crate) fn counts_record(version: u32, counts: &Counts) -> [u8; 24]
    ensures spelling { result ≡ counts_bytes version counts.now }
{
    let mut record = [0; 24];
    let numbers = [
        version,
        counts.groups,
        counts.clusters,
        counts.pages,
        counts.roots,
        counts.sources,
    ];
    write_numbers(&numbers, &mut record);
    record
}

/// Returns the counts of the header's six numbers.
fn counts_from(numbers: &[u32; 6]) -> Counts
    ensures counts { result ≡ counts_from numbers.now }
{
    Counts {
        groups: numbers[1],
        clusters: numbers[2],
        pages: numbers[3],
        roots: numbers[4],
        sources: numbers[5],
    }
}

/// Returns the first 64 bytes of a file with this header.
pub fn encode_header(header: &Header) -> [u8; HEADER_BYTES as usize]
    ensures header { result ≡ header_bytes header.now }
{
    let mut bytes = [0; HEADER_BYTES as usize];
    bytes[..8].copy_from_slice(b"GEOPAGES");
    bytes[8..32].copy_from_slice(&counts_record(header.version, &header.counts));
    bytes[32..].copy_from_slice(&header.digest.bytes);
    bytes
}

/// Returns the header in the first 64 bytes of a file.
///
/// Nothing is refused: the first eight bytes are not looked at, and any version, count and digest is returned.
#[tactic(auto, unfolding(crate::specs::Reading::header_of))]
pub fn decode_header(bytes: &[u8; HEADER_BYTES as usize]) -> Header
    ensures header { result ≡ header_of bytes.now }
{
    let mut numbers = [0; 6];
    read_numbers(&bytes[8..32], &mut numbers);
    let mut digest = Digest32 { bytes: [0; 32] };
    digest
        .bytes
        .copy_from_slice(&bytes[COUNTS_END as usize..HEADER_BYTES as usize]);
    Header {
        version: numbers[0],
        counts: counts_from(&numbers),
        digest,
    }
}
