ghost use Rattle.std.specs.Prelude.{◌≡◌, IfErr, IfNone, IfOk, Ok};
ghost use Rattle.dag_core.specs.Ranges.{AreCountsInRange, is_count_to};
ghost use Rattle.page_codec.specs.declared.sizes.TheConstants.{VERSION};
ghost use Rattle.page_codec.specs.Spelling.{header_bytes};
ghost use Rattle.page_file.specs.Internal.Seen.{JudgedTo};
ghost use Rattle.page_file.specs.Judging.{first_bad_count, header_judged};
ghost use Rattle.page_file.specs.Refusals.{DigestsDiffer};

use crate::open_faults::OpenFault;
use dag_core::Counts;
use geom_core::limits::{MAX_CLUSTERS, MAX_GROUPS, MAX_PAGES, MAX_TRIANGLES};
use page_codec::sizes::{HEADER_BYTES, VERSION};
use page_codec::{Header, decode_header};

/// Whether a count is 1 to `most`.
fn is_count_to(most: u32, count: u32) -> bool
    ensures count { result ≡ is_count_to most count }
{
    1 <= count && count <= most
}

/// Returns the number of the first count that is out of its range.
#[tactic(auto, unfolding(crate::specs::Judging::first_bad_count))]
fn first_bad_count(counts: &Counts) -> Option<u32>
    ensures count { result ≡ first_bad_count counts.now }
    ensures range { IfNone result (AreCountsInRange counts.now) }
{
    if !is_count_to(MAX_GROUPS, counts.groups) {
        return Some(0);
    }
    if !is_count_to(MAX_CLUSTERS, counts.clusters) {
        return Some(1);
    }
    if !is_count_to(MAX_PAGES, counts.pages) {
        return Some(2);
    }
    if !is_count_to(counts.pages, counts.roots) {
        return Some(3);
    }
    if !is_count_to(MAX_TRIANGLES, counts.sources) {
        return Some(4);
    }
    None
}

/// Judges the first 64 bytes of a file: its magic, its version, and its counts.
#[tactic(auto, unfolding(crate::specs::Judging::header_fault))]
pub(crate) fn judge_header(text: &[u8; HEADER_BYTES as usize]) -> Result<Header, OpenFault>
    ensures header { IfOk result (λ header. header_judged text.now ≡ Ok header) }
    ensures version { IfOk result (λ header. header.version ≡ VERSION) }
    ensures spelling { IfOk result (λ header. header_bytes header ≡ text.now) }
    ensures refused { IfErr result (JudgedTo (header_judged text.now)) }
    ensures digests { IfErr result DigestsDiffer }
    ensures range { IfOk result (λ header. AreCountsInRange header.counts) }
{
    let mut magic = [0; 8];
    magic.copy_from_slice(&text[..8]);
    if &magic != b"GEOPAGES" {
        return Err(OpenFault::Magic { found: magic });
    }
    let header = decode_header(text);
    if header.version != VERSION {
        return Err(OpenFault::Version {
            found: header.version,
        });
    }
    match first_bad_count(&header.counts) {
        Some(index) => Err(OpenFault::Rule { number: 0, index }),
        None => Ok(header),
    }
}
