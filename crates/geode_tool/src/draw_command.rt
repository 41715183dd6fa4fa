ghost use Rattle.std.specs.Prelude.{◌≡◌, ◌≤◌, IfOk, IfErr, OnOk};
ghost use Rattle.geom_core.specs.Limits.{IsPicture};
ghost use Rattle.span_io.specs.Reads.{ReadToEnd};
ghost use Rattle.geode_tool.specs.Draw.{IsPictureText};
ghost use Rattle.geode_tool.specs.Headline.{Holds};
ghost use Rattle.geode_tool.specs.Inputs.{inputs_of, streams};
ghost use Rattle.geode_tool.specs.Internal.Unwritten.{StopsUnwritten};
ghost use Rattle.geode_tool.specs.declared.commands.Command.TheVariants as Command;

use crate::commands::DrawRequest;
use crate::draw_mesh::picture_of;
use crate::faults::{Done, Fault};
use crate::write_output::write_whole;
use geom_core::limits::STEPS_PER_UNIT;
use obj_source::read_obj;
use report_text::picture_text;
use span_io::{Sink, Source};
use std::alloc::Global;

/// Reads the text of a mesh and writes the text of its picture.
pub(crate) fn draw<S: Source, K: Sink>(
    alloc: Global,
    request: &DrawRequest,
    input: &mut S,
    out: &mut K,
) -> Result<Done, Fault>
    requires { IsPicture request.now.size }

    ensures promise { Holds (Command.Draw request.now)
        (streams (S.left input.old) (S.faults input.old)
        (K.written out.old) (K.flushed out.old) (K.faults out.old) out.old)
        (streams (S.left input.new) (S.faults input.new)
        (K.written out.new) (K.flushed out.new) (K.faults out.new) out.new) result }
{
    let text = drawn_text(alloc, request, input)?;
    write_whole(out, &text)?;
    Ok(Done::Drawn)
}

/// Reads the text of a mesh and returns the text of its picture.
fn drawn_text<S: Source>(
    alloc: Global,
    request: &DrawRequest,
    input: &mut S,
) -> Result<Vec<u8>, Fault>
    requires { IsPicture request.now.size }

    ensures picture { IfOk result (λ text. IsPictureText request.now (S.left input.old) text.items) }
    ensures input_read { OnOk result (ReadToEnd (S.left input.old) (S.left input.new)) }
    ensures no_fault { OnOk result (S.faults input.new ≡ S.faults input.old) }

    ensures refused { IfErr result (StopsUnwritten (Command.Draw request.now)
        (inputs_of (S.left input.old)) (inputs_of (S.left input.new))
        (S.faults input.old) (S.faults input.new)) }
    ensures fault_count { S.faults input.old ≤ S.faults input.new }
{
    let tris = read_obj(alloc, input, STEPS_PER_UNIT)?;
    let words = picture_of(alloc, request, &tris)?;
    Ok(picture_text(alloc, &words, request.size.width)?)
}
