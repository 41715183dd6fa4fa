ghost use Rattle.std.specs.Prelude.{◌≡◌, ◌≤◌, ◌<◌};
ghost use Rattle.sha2.specs.Sha256.{sha256};
ghost use Rattle.dag_core.specs.Ranges.{AreCountsInRange};
ghost use Rattle.page_codec.specs.Spelling.{directory_digest, page_at};

use crate::headers::counts_record;
use crate::sizes::{CLUSTER_BYTES, DIGEST_BYTES, GROUP_BYTES, HEADER_BYTES};
use dag_core::Counts;
use geom_core::Digest32;
use geom_core::limits::PAGE_BYTES;
use sha2::{Digest, Sha256};

/// Returns the SHA-256 digest of the bytes (FIPS 180-4).
pub fn digest_of(bytes: &[u8]) -> Digest32
    ensures digest { result.bytes ≡ sha256 bytes.now }
{
    Digest32 {
        bytes: Sha256::digest(bytes),
    }
}

/// Returns the digest that the header of a file has: of the version, the counts and the directory's bytes.
pub fn directory_digest(version: u32, counts: &Counts, directory: &[u8]) -> Digest32
    ensures digest { result.bytes ≡ directory_digest version counts.now directory.now }
{
    let mut hasher = Sha256::new();
    hasher.update(&counts_record(version, counts));
    hasher.update(directory);
    Digest32 {
        bytes: hasher.finalize(),
    }
}

/// Returns the place of page `page` in a file with these counts, in bytes. The place of the page after the last one
/// is the file's length.
pub fn page_at(counts: &Counts, page: u32) -> u64
    ensures place { result ≡ page_at counts.now page }
{
    let groups = u64::from(GROUP_BYTES) * u64::from(counts.groups);
    let clusters = u64::from(CLUSTER_BYTES) * u64::from(counts.clusters);
    let digests = u64::from(DIGEST_BYTES) * u64::from(counts.pages);
    let directory = groups + clusters + digests;
    u64::from(HEADER_BYTES) + directory + u64::from(PAGE_BYTES) * u64::from(page)
}
