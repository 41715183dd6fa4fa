ghost use Rattle.std.specs.Prelude.{◌≡◌, IfErr, None, OnOk};
ghost use Rattle.dag_core.specs.TriangleRules.{IsLaidOut};
ghost use Rattle.dag_soundness.specs.FirstBreaks.{Refuses, first_dag_break};

use crate::edge_sums::first_sums_break;
use crate::faults::{RuleBreak, TriangleFault};
use crate::leaf_places::{first_corner_break, first_source_break, leaf_places};
use dag_core::Dag;
use std::alloc::Global;

/// Checks the rules of a DAG's triangles, in order: 6 edge sums, 7 sources, 8 corners. The DAG is sound exactly if
/// none is broken.
#[tactic(auto, using(crate::proofs::BreakLaws::break_rules))]
pub fn check_triangles(alloc: Global, dag: &Dag) -> Result<(), TriangleFault>
    requires laid_out { IsLaidOut dag.now }
    ensures kept { OnOk result (first_dag_break dag.now ≡ None) }
    ensures refused { IfErr result (Refuses (first_dag_break dag.now)) }
{
    if let Some(index) = first_sums_break(alloc, dag)? {
        return Err(TriangleFault::Broken(RuleBreak { rule: 6, index }));
    }
    let places = leaf_places(alloc, dag)?;
    if let Some(index) = first_source_break(dag, &places) {
        return Err(TriangleFault::Broken(RuleBreak { rule: 7, index }));
    }
    if let Some(index) = first_corner_break(dag, &places) {
        return Err(TriangleFault::Broken(RuleBreak { rule: 8, index }));
    }
    Ok(())
}
