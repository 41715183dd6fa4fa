ghost use Rattle.std.specs.Prelude.{◌≡◌, IfErr, IfOk, None, Ok, OnOk, length};
ghost use Rattle.dag_core.specs.Ranges.{AreCountsInRange, IsInRange, counts_of};
ghost use Rattle.dag_core.specs.Rules.{Checked};
ghost use Rattle.page_codec.specs.Fits.{FitsDirectory};
ghost use Rattle.page_codec.specs.Spelling.{directory_bytes, directory_digest, directory_length};
ghost use Rattle.page_file.specs.Internal.Seen.{JudgedTo, RulesRefused};
ghost use Rattle.page_file.specs.Judging.{directory_judged, rules_fault};
ghost use Rattle.page_file.specs.Refusals.{DigestsDiffer};

use crate::open_faults::OpenFault;
use dag_core::{CheckFault, Heads};
use page_codec::{Directory, Header, Refused, decode_directory, directory_digest};
use std::alloc::Global;

/// Checks the five rules of the heads, in order.
fn check_rules(alloc: Global, heads: &Heads) -> Result<(), OpenFault>
    requires range { IsInRange heads.now }
    ensures kept { OnOk result (rules_fault heads.now ≡ None) }
    ensures rules { OnOk result (Checked heads.now) }
    ensures refused { IfErr result (RulesRefused heads.now) }
    ensures digests { IfErr result DigestsDiffer }
{
    match heads.check(alloc) {
        Ok(()) => Ok(()),
        Err(CheckFault::Rule { number, index }) => Err(OpenFault::Rule { number, index }),
        Err(CheckFault::Memory) => Err(OpenFault::Memory),
    }
}

/// Judges the directory of a file with this header: its digest, its grammar, and the rules of its heads.
#[tactic(auto, unfolding(crate::specs::Judging::directory_fault, crate::specs::Judging::digest_found))]
pub(crate) fn judge_directory(
    alloc: Global,
    header: &Header,
    text: &[u8],
) -> Result<Directory, OpenFault>
    requires counts { AreCountsInRange header.now.counts }
    requires length { length text.now ≡ directory_length header.now.counts }
    ensures directory { IfOk result (λ found. directory_judged header.now text.now ≡ Ok found) }
    ensures spelling { IfOk result (λ found. directory_bytes found ≡ text.now) }
    ensures digest { OnOk result (header.now.digest.bytes
        ≡ directory_digest header.now.version header.now.counts text.now) }
    ensures refused { IfErr result (JudgedTo (directory_judged header.now text.now)) }
    ensures digests { IfErr result DigestsDiffer }
    ensures counts { IfOk result (λ found. counts_of found.heads ≡ header.now.counts) }
    ensures fits { IfOk result FitsDirectory }
    ensures rules { IfOk result (λ found. Checked found.heads) }
{
    let found = directory_digest(header.version, &header.counts, text);
    let stated = header.digest;
    if stated != found {
        return Err(OpenFault::DirectoryDigest { stated, found });
    }
    let directory = match decode_directory(alloc, text, &header.counts) {
        Ok(directory) => directory,
        Err(Refused::Bad(broken)) => {
            return Err(OpenFault::DirectoryBad {
                rule: broken.rule,
                offset: broken.offset,
            });
        }
        Err(Refused::Memory) => return Err(OpenFault::Memory),
    };
    check_rules(alloc, &directory.heads)?;
    Ok(directory)
}
