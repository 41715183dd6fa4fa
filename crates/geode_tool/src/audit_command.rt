ghost use Rattle.std.specs.Prelude.{◌≡◌, ◌≤◌, length, Ok, string_bytes, IfOk, IfErr, OnOk};
ghost use Rattle.geom_core.specs.declared.limits.TheConstants.{MAX_JOURNAL_BYTES};
ghost use Rattle.span_io.specs.Reads.{ReadToEnd};
ghost use Rattle.geode_tool.specs.Audit.{audit_answer, verdict_text, IsAudited};
ghost use Rattle.geode_tool.specs.Headline.{Holds};
ghost use Rattle.geode_tool.specs.Inputs.{inputs_of, streams};
ghost use Rattle.geode_tool.specs.Internal.Unwritten.{JudgeRefuses, StopsUnwritten};
ghost use Rattle.geode_tool.specs.declared.commands.Command.TheVariants as Command;

use crate::faults::{Done, Fault};
use crate::write_output::write_whole;
use geom_core::Memory;
use geom_core::limits::MAX_JOURNAL_BYTES;
use journal::{Journal, read_journal};
use residency::Pool;
use span_io::{Sink, Source, read_text};
use std::alloc::Global;

/// Reads the text of a journal and writes the number of its entries, if each entry was allowed.
pub(crate) fn audit<S: Source, K: Sink>(
    alloc: Global,
    input: &mut S,
    out: &mut K,
) -> Result<Done, Fault>
    ensures promise { Holds Command.Audit
        (streams (S.left input.old) (S.faults input.old)
        (K.written out.old) (K.flushed out.old) (K.faults out.old) out.old)
        (streams (S.left input.new) (S.faults input.new)
        (K.written out.new) (K.flushed out.new) (K.faults out.new) out.new) result }
{
    let entries = legal_entries(alloc, input)?;
    let verdict = verdict_text(alloc, entries)?;
    write_whole(out, verdict.as_bytes())?;
    Ok(Done::Audited { entries })
}

/// Reads the text of a journal and returns the number of its entries, if each entry was allowed.
fn legal_entries<S: Source>(alloc: Global, input: &mut S) -> Result<u64, Fault>
    ensures legal { IfOk result (IsAudited (S.left input.old)) }
    ensures input_read { OnOk result (ReadToEnd (S.left input.old) (S.left input.new)) }
    ensures no_fault { OnOk result (S.faults input.new ≡ S.faults input.old) }

    ensures refused { IfErr result (StopsUnwritten Command.Audit
        (inputs_of (S.left input.old)) (inputs_of (S.left input.new))
        (S.faults input.old) (S.faults input.new)) }
    ensures fault_count { S.faults input.old ≤ S.faults input.new }
{
    let text = read_text(alloc, input, MAX_JOURNAL_BYTES as usize)?;
    entries_of(alloc, &text)
}

/// Returns the number of entries of the journal in a text, if each entry was allowed.
fn entries_of(alloc: Global, text: &[u8]) -> Result<u64, Fault>
    requires { length text.now ≤ MAX_JOURNAL_BYTES }
    ensures legal { IfOk result
        (λ entries. audit_answer text.now ≡ Ok entries) }
    ensures refused { IfErr result (JudgeRefuses text.now) }
{
    let Journal { layout, entries } = read_journal(alloc, text)?;
    let pool = Pool::replay(alloc, layout, entries.into_vec())?;
    Ok(pool.journal().len() as u64)
}

/// Returns what is written if the journal is legal.
#[tactic(auto, unfolding(crate::specs::Audit::verdict_text))]
fn verdict_text(alloc: Global, entries: u64) -> Result<String, Memory>
    ensures { IfOk result (λ text. string_bytes text ≡ verdict_text entries) }
{
    Ok(format!(in alloc; "legal {entries}\n")?)
}
