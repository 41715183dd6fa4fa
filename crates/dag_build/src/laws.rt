//! Laws of built DAGs: public functions without a body, whose clauses callers' proofs cite.
ghost use Rattle.std.specs.Prelude.{◌≡◌, ◌≤◌, ◌*◌, ℕ, false, All, List, length, flat_map};
ghost use Rattle.geom_core.specs.declared.limits.TheConstants.{MAX_COORDINATE};
ghost use Rattle.geom_core.specs.declared.triangles.Tri.{Tri};
ghost use Rattle.geom_core.specs.Limits.{AreGridTriangles};
ghost use Rattle.dag_core.specs.declared.dags.Dag.{Dag};
ghost use Rattle.dag_core.specs.Ranges.{IsInRange};
ghost use Rattle.dag_core.specs.Rules.{KeepsRulesBelow};
ghost use Rattle.dag_core.specs.TriangleRules.{CanBeLaidOut, dag_breaks};
ghost use Rattle.dag_core.specs.Triangles.{source_of};
ghost use Rattle.dag_build.specs.Built.{IsBuilt};

/// A law: a mesh has at most one DAG.
pub fn one_dag_is_built()
    ensures dag { (tris : List Tri) (dag other : Dag) → IsBuilt tris dag → IsBuilt tris other →
        dag ≡ other }
{}

/// A law: all numbers of a built DAG keep their ranges, and it keeps the rules of members, makers, terminal groups,
/// and errors and boxes.
pub fn built_dags_are_checked()
    ensures range { (tris : List Tri) (dag : Dag) → AreGridTriangles tris → IsBuilt tris dag →
        IsInRange dag.heads }
    ensures rules { (tris : List Tri) (dag : Dag) → AreGridTriangles tris → IsBuilt tris dag →
        KeepsRulesBelow 5 dag.heads }
{}

/// A law: a built DAG can be laid out on pages. So each of its clusters has as many triangles as its head states, all
/// of them triangles of a mesh with the number of a source triangle.
pub fn built_dags_can_be_laid_out()
    ensures layout { (tris : List Tri) (dag : Dag) → AreGridTriangles tris → IsBuilt tris dag →
        CanBeLaidOut dag }
{}

/// A law: in a built DAG the members of a group that isn't terminal and the clusters that it made have the same edge
/// sum at each pair of points.
pub fn built_dags_keep_edge_sums()
    ensures sums { (tris : List Tri) (dag : Dag) (g : ℕ) → AreGridTriangles tris → IsBuilt tris dag →
        dag_breaks 6 dag g ≡ false }
{}

/// A law: each source triangle of a built DAG is that of exactly one leaf triangle, and its source mesh is the mesh
/// that it is built of.
pub fn built_dags_have_each_source()
    ensures once { (tris : List Tri) (dag : Dag) (source : ℕ) → AreGridTriangles tris → IsBuilt tris dag →
        dag_breaks 7 dag source ≡ false }
    ensures mesh { (tris : List Tri) (dag : Dag) → AreGridTriangles tris → IsBuilt tris dag →
        source_of dag ≡ tris }
{}

/// A law: in a built DAG each corner of a cluster's triangle lies within the error of the cluster's maker, 0 for a
/// leaf, of the same corner of its source triangle, by the Chebyshev distance.
pub fn built_corners_stay_within()
    ensures within { (tris : List Tri) (dag : Dag) (c : ℕ) → AreGridTriangles tris → IsBuilt tris dag →
        dag_breaks 8 dag c ≡ false }
{}

/// A law: all levels of a built DAG together have at most eight times as many triangles as the mesh, and so at most
/// 2^23, since each level has at most seven eighths of those of the one before it. So there are at most 93 levels. Each
/// adds at most the greatest distance of two points of a mesh to an error, which is then at most 195,035,136.
pub fn built_dags_are_small()
    ensures triangle_limit { (tris : List Tri) (dag : Dag) → AreGridTriangles tris → IsBuilt tris dag →
        length (flat_map (λ list. list) dag.tris) ≤ 8 * length tris }
    ensures error_limit { (tris : List Tri) (dag : Dag) → AreGridTriangles tris → IsBuilt tris dag →
        All (λ group. group.error ≤ 93 * (2 * MAX_COORDINATE)) dag.heads.groups }
{}
