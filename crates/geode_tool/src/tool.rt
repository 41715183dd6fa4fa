ghost use Rattle.std.specs.Prelude.{◌≡◌, ◌↔◌, ◌<◌, false, None, Err, IfSome, length};
ghost use Rattle.geode_tool.specs.Commands.{asked, sources_needed, takes_input};
ghost use Rattle.geode_tool.specs.Headline.{Holds};
ghost use Rattle.geode_tool.specs.Inputs.{sources_of, streams, with_sources};

use crate::audit_command::audit;
use crate::build_command::build;
use crate::commands::{Command, command_of};
use crate::draw_command::draw;
use crate::faults::{Done, Fault, UsageKind};
use crate::make_command::make;
use crate::verify_command::verify;
use page_sources::PageSource;
use span_io::{Sink, Source};
use std::alloc::Global;

/// Does what a command line asks for: reads the input and writes the result, and nothing else.
///
/// `words` are the command line without the program's name. `draw WIDTH HEIGHT CAMERA` reads an OBJ text
/// and writes the picture of its triangles as rows of hexadecimal words. `audit` reads the text of a page
/// pool's journal and writes `legal N` if each of its N entries was allowed after the entries before it.
/// `make SIZE NUMBER` reads nothing and writes the OBJ text of a box. `build` reads an OBJ text and writes
/// the page file of its mesh's levels of detail. `verify FILE` reads the first page source and writes
/// `sound groups G clusters C pages P roots R sources N`, the file's counts, if it is that of a sound DAG.
///
/// `sources` are page sources of the file that the words name: at least as many as the command needs, which
/// [`places`](crate::places) tells. A command that names no file leaves them as they were.
///
/// The promise, of which the record `Holds` in `specs/Headline.antt` has a field for each phrase:
///
/// **For input whose bytes are known, a command answers their first refusal or succeeds, unless a read, a
/// write or memory fails; a success has written exactly its text, flushed it and read all input, if the
/// command takes input; a refusal is one that the command may return, has its cause, comes before any
/// further read, and leaves a prefix of such a text after a failed write or want of memory, and otherwise
/// the output as it was; no count of failures falls, and a success changes none.**
pub fn geode<S: Source, K: Sink, P: PageSource + Send>(
    alloc: Global,
    words: &[&str],
    input: &mut S,
    sources: &mut Vec<P>,
    out: &mut K,
) -> Result<Done, Fault>
    // `Usage` is returned exactly if the words ask for no command; then nothing is read or written.
    ensures usage { (result ≡ Err (Fault.Usage UsageKind.Line)) ↔ (asked words.now ≡ None) }
    ensures unchanged { asked words.now ≡ None
        → (input.new ≡ input.old) × (sources.new ≡ sources.old) × (out.new ≡ out.old) }

    // If the command lacks page sources, `NoSource` is returned, and nothing is read or written.
    ensures no_source { IfSome (asked words.now) (λ command.
        length sources.old.items < sources_needed command
        → result ≡ Err (Fault.NoSource (sources_needed command) (length sources.old.items))) }
    ensures only_refused { IfSome (asked words.now) (λ command.
        length sources.old.items < sources_needed command
        → (input.new ≡ input.old) × (sources.new ≡ sources.old) × (out.new ≡ out.old)) }

    // A command without input leaves the input as it was, and one that names no file the page sources.
    ensures input_unchanged { IfSome (asked words.now) (λ command. takes_input command ≡ false
        → input.new ≡ input.old) }
    ensures sources_unchanged { IfSome (asked words.now) (λ command. sources_needed command ≡ 0
        → sources.new ≡ sources.old) }

    // Otherwise the promise holds of the command.
    ensures promise { IfSome (asked words.now) (λ command. Holds command
        (with_sources (sources_of P.holds P.faults sources.old.items)
        (streams (S.left input.old) (S.faults input.old)
        (K.written out.old) (K.flushed out.old) (K.faults out.old) out.old))
        (with_sources (sources_of P.holds P.faults sources.new.items)
        (streams (S.left input.new) (S.faults input.new)
        (K.written out.new) (K.flushed out.new) (K.faults out.new) out.new)) result) }
{
    match command_of(words) {
        None => Err(Fault::Usage(UsageKind::Line)),
        Some(Command::Draw(request)) => draw(alloc, &request, input, out),
        Some(Command::Audit) => audit(alloc, input, out),
        Some(Command::Build) => build(alloc, input, out),
        Some(Command::Make(request)) => make(alloc, &request, out),
        Some(Command::Verify) => verify(alloc, sources, out),
    }
}
