ghost use Rattle.std.specs.Prelude.{◌≡◌, IfErr, IfOk, None, OnOk, length};
ghost use Rattle.dag_core.specs.Ranges.{AreCountsInRange, counts_of};
ghost use Rattle.page_codec.specs.Breaks.{Refuses, first_directory_break};
ghost use Rattle.page_codec.specs.Fits.{FitsDirectory};
ghost use Rattle.page_codec.specs.Reading.{digests_of, directory_of, heads_of};
ghost use Rattle.page_codec.specs.Spelling.{directory_bytes, directory_length};

use crate::breaks::Refused;
use crate::directories::{Digests, Directory};
use crate::first_breaks::first_directory_break;
use crate::sizes::{CLUSTER_BYTES, GROUP_BYTES};
use crate::tables::{append_records, read_records};
use dag_core::{ClusterHeads, Counts, Groups, Heads};
use geom_core::Memory;
use std::alloc::Global;

/// Returns what the directory spells: its groups, its clusters, then its digests.
#[tactic(auto, unfolding(crate::specs::Spelling::directory_bytes))]
pub fn encode_directory(alloc: Global, directory: &Directory) -> Result<Vec<u8>, Memory>
    ensures directory { IfOk result (λ bytes. bytes.items ≡ directory_bytes directory.now) }
{
    let mut out = Vec::new(alloc);
    append_records(directory.heads.groups.as_slice(), &mut out)?;
    append_records(directory.heads.clusters.as_slice(), &mut out)?;
    append_records(directory.digests.as_slice(), &mut out)?;
    Ok(out)
}

/// Reads the groups and the clusters of a directory with these counts.
fn read_heads(alloc: Global, bytes: &[u8], counts: &Counts) -> Result<Heads, Memory>
    requires counts { AreCountsInRange counts.now }
    requires length { length bytes.now ≡ directory_length counts.now }
    ensures heads { IfOk result (λ heads. heads ≡ heads_of counts.now bytes.now) }
{
    let groups = read_records(alloc, bytes, counts.groups as usize)?;
    let start = GROUP_BYTES as usize * counts.groups as usize;
    let clusters = read_records(alloc, &bytes[start..], counts.clusters as usize)?;
    Ok(Heads {
        groups: Groups::of(groups),
        clusters: ClusterHeads::of(clusters),
        pages: counts.pages,
        roots: counts.roots,
        sources: counts.sources,
    })
}

/// Reads the digests of a directory with these counts.
fn read_digests(alloc: Global, bytes: &[u8], counts: &Counts) -> Result<Digests, Memory>
    requires counts { AreCountsInRange counts.now }
    requires length { length bytes.now ≡ directory_length counts.now }
    ensures digests { IfOk result (λ digests. digests ≡ digests_of counts.now bytes.now) }
{
    let groups = GROUP_BYTES as usize * counts.groups as usize;
    let start = groups + CLUSTER_BYTES as usize * counts.clusters as usize;
    let digests = read_records(alloc, &bytes[start..], counts.pages as usize)?;
    Ok(Digests::of(digests))
}

/// Decodes the directory of a file with these counts. `Bad` comes exactly where the bytes break a rule, unless
/// memory runs out; its offset counts from the directory's start.
#[tactic(auto, unfolding(crate::specs::Reading::directory_of))]
pub fn decode_directory(alloc: Global, bytes: &[u8], counts: &Counts) -> Result<Directory, Refused>
    requires counts { AreCountsInRange counts.now }
    requires length { length bytes.now ≡ directory_length counts.now }
    ensures directory { IfOk result (λ found. found ≡ directory_of counts.now bytes.now) }
    ensures spelling { IfOk result (λ found. directory_bytes found ≡ bytes.now) }
    ensures counts { IfOk result (λ found. counts_of found.heads ≡ counts.now) }
    ensures fits { IfOk result FitsDirectory }
    ensures no_break { OnOk result (first_directory_break counts.now bytes.now ≡ None) }
    ensures bad { IfErr result (Refuses (first_directory_break counts.now bytes.now)) }
{
    match first_directory_break(bytes, counts) {
        Some(found) => Err(Refused::Bad(found)),
        None => {
            let heads = read_heads(alloc, bytes, counts)?;
            let digests = read_digests(alloc, bytes, counts)?;
            Ok(Directory { heads, digests })
        }
    }
}
