ghost use Rattle.std.specs.Prelude.{ℕ, List, Option};
ghost use Rattle.shape_gen.specs.Lattice.{IsBoxSize};
ghost use Rattle.geode_tool.specs.Headline.{Holds};
ghost use Rattle.geode_tool.specs.Inputs.{streams};
ghost use Rattle.geode_tool.specs.declared.commands.Command.TheVariants as Command;

use crate::commands::BoxRequest;
use crate::faults::{Done, Fault};
use crate::write_output::write_whole;
use shape_gen::box_text;
use span_io::Sink;
use std::alloc::Global;

/// Writes the text of the requested box. It takes no input: the promise holds with any input, left as it was.
pub(crate) fn make<K: Sink>(alloc: Global, request: &BoxRequest, out: &mut K) -> Result<Done, Fault>
    requires { IsBoxSize request.now.size }

    ensures promise { (left : Option (List ℕ)) (faults : ℕ) → Holds (Command.Make request.now)
        (streams left faults (K.written out.old) (K.flushed out.old) (K.faults out.old) out.old)
        (streams left faults (K.written out.new) (K.flushed out.new) (K.faults out.new) out.new)
        result }
{
    let text = box_text(alloc, request.size, request.number)?;
    write_whole(out, &text)?;
    Ok(Done::Made)
}
