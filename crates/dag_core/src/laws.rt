//! Laws of DAGs: public functions without a body, whose clauses callers' proofs cite.
ghost use Rattle.std.specs.Prelude.{◌≡◌, ◌↔◌, IsTrue, List};
ghost use Rattle.geom_core.specs.declared.points.Pt.{Pt};
ghost use Rattle.geom_core.specs.declared.triangles.Tri.{Tri};
ghost use Rattle.geom_core.specs.EdgeSum.{edge_sum};
ghost use Rattle.dag_core.specs.TriangleRules.{have_same_sums};

/// A law: rule 6 compares edge sums at the edges of both lists alone, which is to compare them at every pair of points.
pub fn same_sums_agree_everywhere()
    ensures sums { (tris others : List Tri) →
        IsTrue (have_same_sums tris others) ↔
        ((u v : Pt) → edge_sum tris u v ≡ edge_sum others u v) }
{}
