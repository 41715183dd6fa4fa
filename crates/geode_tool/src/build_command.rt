ghost use Rattle.std.specs.Prelude.{◌≡◌, ◌≤◌, IfOk, IfErr, OnOk};
ghost use Rattle.dag_core.specs.TriangleRules.{IsLaidOut};
ghost use Rattle.span_io.specs.Reads.{ReadToEnd};
ghost use Rattle.geode_tool.specs.Build.{IsBuiltFrom};
ghost use Rattle.geode_tool.specs.Headline.{Holds};
ghost use Rattle.geode_tool.specs.Inputs.{inputs_of, streams};
ghost use Rattle.geode_tool.specs.Internal.Unwritten.{StopsUnwritten};
ghost use Rattle.geode_tool.specs.declared.commands.Command.TheVariants as Command;

use crate::faults::{Done, Fault};
use dag_build::build_dag;
use dag_core::Dag;
use geom_core::limits::STEPS_PER_UNIT;
use obj_source::read_obj;
use page_file::{lay_out, write_pages};
use span_io::{Sink, Source};
use std::alloc::Global;

/// Reads the text of a mesh and writes the page file of its levels of detail.
pub(crate) fn build<S: Source, K: Sink>(
    alloc: Global,
    input: &mut S,
    out: &mut K,
) -> Result<Done, Fault>
    ensures promise { Holds Command.Build
        (streams (S.left input.old) (S.faults input.old)
        (K.written out.old) (K.flushed out.old) (K.faults out.old) out.old)
        (streams (S.left input.new) (S.faults input.new)
        (K.written out.new) (K.flushed out.new) (K.faults out.new) out.new) result }
{
    let dag = built_dag(alloc, input)?;
    let counts = dag.heads.counts();
    write_pages(alloc, &dag, out)?;
    Ok(Done::Built(counts))
}

/// Reads the text of a mesh and returns the DAG of its levels of detail, laid out on pages.
fn built_dag<S: Source>(alloc: Global, input: &mut S) -> Result<Dag, Fault>
    ensures built { IfOk result (IsBuiltFrom (S.left input.old)) }
    ensures laid_out { IfOk result IsLaidOut }
    ensures input_read { OnOk result (ReadToEnd (S.left input.old) (S.left input.new)) }
    ensures no_fault { OnOk result (S.faults input.new ≡ S.faults input.old) }

    ensures refused { IfErr result (StopsUnwritten Command.Build
        (inputs_of (S.left input.old)) (inputs_of (S.left input.new))
        (S.faults input.old) (S.faults input.new)) }
    ensures fault_count { S.faults input.old ≤ S.faults input.new }
{
    let tris = read_obj(alloc, input, STEPS_PER_UNIT)?;
    let dag = build_dag(alloc, tris)?;
    Ok(lay_out(alloc, dag)?)
}
