//! Laws of laid-out DAGs, as functions without a body: each clause holds for all that it names.

ghost use Rattle.std.specs.Prelude.{◌≡◌, ℕ, false};
ghost use Rattle.dag_core.specs.declared.dags.Dag.{Dag};
ghost use Rattle.dag_core.specs.TriangleRules.{CanBeLaidOut, IsLaidOut, Sound, dag_breaks};
ghost use Rattle.dag_core.specs.Triangles.{source_of};
ghost use Rattle.page_file.specs.PagesRule.{laid_out};

/// What the pages rule lays out keeps all five rules of a DAG's heads, and its numbers keep their ranges. No page has
/// more triangles than a page stores, terminal groups are on root pages, and no page depends on a later one.
pub fn laid_out_dags_are_checked()
    ensures laid_out { (dag : Dag) → CanBeLaidOut dag → IsLaidOut (laid_out dag) }
{}

/// Laying out changes no triangle: the rules of the triangles are broken where they were, so a DAG that keeps them is
/// sound once it is laid out, and its source mesh stays.
pub fn laid_out_dags_stay_sound()
    ensures rules { (dag : Dag) (rule index : ℕ) →
        dag_breaks rule (laid_out dag) index ≡ dag_breaks rule dag index }
    ensures sound { (dag : Dag) → CanBeLaidOut dag →
        ((rule index : ℕ) → dag_breaks rule dag index ≡ false) → Sound (laid_out dag) }
    ensures source { (dag : Dag) → source_of (laid_out dag) ≡ source_of dag }
{}
