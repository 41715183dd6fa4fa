ghost use Rattle.std.specs.Prelude.{◌≡◌, ℕ, [], List, Option, Err, IfOk, IfErr, OnOk};
ghost use Rattle.geode_tool.specs.Headline.{Holds};
ghost use Rattle.geode_tool.specs.Inputs.{sources_of, streams, with_sources};
ghost use Rattle.geode_tool.specs.Internal.Verifying.{AcceptsPages, KeepsSources, RefusesPages};
ghost use Rattle.geode_tool.specs.Verify.{sound_text, then_count};
ghost use Rattle.geode_tool.specs.declared.commands.Command.TheVariants as Command;

use crate::faults::{Done, Fault};
use crate::write_output::write_whole;
use dag_core::Counts;
use geom_core::Memory;
use itoa::Buffer;
use page_file::verify_pages;
use page_sources::PageSource;
use span_io::Sink;
use std::alloc::Global;

/// Verifies the page file of the first page source and writes its counts, if it is the file of a sound DAG.
///
/// It takes no input: the promise holds with any input, left as it was.
pub(crate) fn verify<K: Sink, P: PageSource>(
    alloc: Global,
    sources: &mut Vec<P>,
    out: &mut K,
) -> Result<Done, Fault>
    ensures no_source { sources.old.items ≡ [] → (result ≡ Err (Fault.NoSource 1 0))
        × (sources.new ≡ sources.old) × (out.new ≡ out.old) }
    ensures promise { (left : Option (List ℕ)) (faults : ℕ) → Holds Command.Verify
        (with_sources (sources_of P.holds P.faults sources.old.items)
        (streams left faults (K.written out.old) (K.flushed out.old) (K.faults out.old) out.old))
        (with_sources (sources_of P.holds P.faults sources.new.items)
        (streams left faults (K.written out.new) (K.flushed out.new) (K.faults out.new) out.new))
        result }
{
    let counts = sound_counts(alloc, sources)?;
    let line = sound_text(alloc, &counts)?;
    write_whole(out, &line)?;
    Ok(Done::Verified(counts))
}

/// Returns the counts of the page file of the first page source, if it is the file of a sound DAG.
fn sound_counts<P: PageSource>(alloc: Global, sources: &mut Vec<P>) -> Result<Counts, Fault>
    ensures no_source { sources.old.items ≡ [] → (result ≡ Err (Fault.NoSource 1 0))
        × (sources.new ≡ sources.old) }
    ensures verified { IfOk result (AcceptsPages
        (sources_of P.holds P.faults sources.old.items)) }
    ensures kept { KeepsSources (sources_of P.holds P.faults sources.old.items)
        (sources_of P.holds P.faults sources.new.items) }
    ensures refused { (left : Option (List ℕ)) (faults : ℕ) → IfErr result (RefusesPages left faults
        (sources_of P.holds P.faults sources.old.items)
        (sources_of P.holds P.faults sources.new.items)) }
{
    if sources.as_slice().is_empty() {
        return Err(Fault::NoSource { need: 1, have: 0 });
    }
    Ok(verify_pages(alloc, &mut sources[0])?)
}

/// Returns what is written if the file is sound.
#[tactic(auto, unfolding(crate::specs::Verify::sound_text))]
fn sound_text(alloc: Global, counts: &Counts) -> Result<Vec<u8>, Memory>
    ensures text { IfOk result (λ text. text.items ≡ sound_text counts.now) }
{
    let mut text = Vec::new(alloc);
    push_count(&mut text, b"sound groups ", counts.groups)?;
    push_count(&mut text, b" clusters ", counts.clusters)?;
    push_count(&mut text, b" pages ", counts.pages)?;
    push_count(&mut text, b" roots ", counts.roots)?;
    push_count(&mut text, b" sources ", counts.sources)?;
    text.push(b'\n')?;
    Ok(text)
}

/// Appends a word and the digits of a count.
fn push_count(text: &mut Vec<u8>, word: &[u8], count: u32) -> Result<(), Memory>
    ensures { OnOk result (text.new.items ≡ then_count text.old.items word.now count) }
{
    let mut buffer = Buffer::new();
    text.extend_from_slice(word)?;
    text.extend_from_slice(buffer.format(count).as_bytes())?;
    Ok(())
}
