ghost use Rattle.std.specs.Prelude.{◌≡◌, ◌≢◌, ◌⊎◌, ◌<◌, false, None, Err, map, drop, length};
ghost use Rattle.std.specs.Prelude.{string_bytes, IfOk, IfErr, IfSome};
ghost use Rattle.geode_tool.specs.Commands.{sources_needed, takes_input};
ghost use Rattle.geode_tool.specs.Headline.{Holds};
ghost use Rattle.geode_tool.specs.Inputs.{sources_of, streams, with_sources};
ghost use Rattle.geode_tool.specs.Places.{IsWanted};
ghost use Rattle.geode_tool.specs.Statuses.{exit_status_of};
ghost use Rattle.geode_tool.specs.Words.{command_words};

use crate::faults::{Done, Fault, UsageKind};
use crate::named_files::{Wanted, places};
use crate::tool::geode;
use geom_core::Memory;
use page_sources::PageSource;
use span_io::{Sink, Source};
use std::alloc::Global;

/// Calls [`geode`] with a program's arguments, the first of which is the program's name and no word.
///
/// `Memory` is also returned if there is none for the list of words; then nothing is read or written.
pub fn call<S: Source, K: Sink, P: PageSource + Send>(
    alloc: Global,
    args: &[String],
    input: &mut S,
    sources: &mut Vec<P>,
    out: &mut K,
) -> Result<Done, Fault>
    ensures usage { command_words (map string_bytes (drop 1 args.now)) ≡ None
        → (result ≡ Err (Fault.Usage UsageKind.Line)) ⊎ (result ≡ Err Fault.Memory) }
    ensures unchanged { command_words (map string_bytes (drop 1 args.now)) ≡ None
        → (input.new ≡ input.old) × (sources.new ≡ sources.old) × (out.new ≡ out.old) }
    ensures only_refused { IfSome (command_words (map string_bytes (drop 1 args.now))) (λ command.
        length sources.old.items < sources_needed command
        → (input.new ≡ input.old) × (sources.new ≡ sources.old) × (out.new ≡ out.old)) }
    ensures input_unchanged { IfSome (command_words (map string_bytes (drop 1 args.now)))
        (λ command. takes_input command ≡ false → input.new ≡ input.old) }
    ensures sources_unchanged { IfSome (command_words (map string_bytes (drop 1 args.now)))
        (λ command. sources_needed command ≡ 0 → sources.new ≡ sources.old) }
    ensures promise { IfSome (command_words (map string_bytes (drop 1 args.now))) (λ command.
        Holds command
        (with_sources (sources_of P.holds P.faults sources.old.items)
        (streams (S.left input.old) (S.faults input.old)
        (K.written out.old) (K.flushed out.old) (K.faults out.old) out.old))
        (with_sources (sources_of P.holds P.faults sources.new.items)
        (streams (S.left input.new) (S.faults input.new)
        (K.written out.new) (K.flushed out.new) (K.faults out.new) out.new)) result) }
{
    let words = slices_of(alloc, words_of(args))?;
    geode(alloc, &words, input, sources, out)
}

/// Returns what a program's arguments name, the first of which is the program's name and no word.
pub fn places_of(alloc: Global, args: &[String]) -> Result<Wanted, Fault>
    ensures wanted { IfOk result (λ wanted. IfSome (command_words (map string_bytes (drop 1 args.now)))
        (IsWanted (map string_bytes (drop 1 args.now)) wanted)) }
    ensures usage { command_words (map string_bytes (drop 1 args.now)) ≡ None
        → (result ≡ Err (Fault.Usage UsageKind.Line)) ⊎ (result ≡ Err Fault.Memory) }
    ensures memory { IfErr result (λ fault. command_words (map string_bytes (drop 1 args.now)) ≢ None
        → fault ≡ Fault.Memory) }
{
    let words = slices_of(alloc, words_of(args))?;
    places(alloc, &words)
}

/// Returns the words after the program's name.
fn words_of(args: &[String]) -> &[String]
    ensures { result.now ≡ drop 1 args.now }
{
    match args {
        [] => args,
        [_program, words @ ..] => words,
    }
}

/// Returns the texts of words.
fn slices_of(alloc: Global, words: &[String]) -> Result<Vec<&str>, Memory>
    ensures { IfOk result (λ slices. map (λ w. w.now) slices.items ≡ map string_bytes words.now) }
{
    let mut slices = Vec::new(alloc);
    'words: for word in words {
        slices.push(word.as_str())?;
    }
    Ok(slices)
}

/// Returns the exit status of a program that ends with this answer: 0 for a success, else the fault's.
pub fn exit_status(answer: &Result<Done, Fault>) -> u8
    ensures { result ≡ exit_status_of answer.now }
{
    match answer {
        Ok(_) => 0,
        Err(fault) => fault.status(),
    }
}
