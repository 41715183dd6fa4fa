//! Laws of cuts: public functions without a body, whose clauses callers' proofs cite.
ghost use Rattle.std.specs.Prelude.{◌≡◌, ◌<◌, ◌≤◌, ℕ, pos, All, IsTrue, List, Some, length};
ghost use Rattle.std.specs.List.{range_with_len};
ghost use Rattle.geom_core.specs.declared.boxes.Cube.{Cube};
ghost use Rattle.geom_core.specs.declared.points.Pt.{Pt};
ghost use Rattle.geom_core.specs.declared.triangles.Tri.{Tri};
ghost use Rattle.geom_core.specs.declared.views.Lens.{Lens};
ghost use Rattle.geom_core.specs.Boxes.{holds_box, is_under};
ghost use Rattle.geom_core.specs.EdgeSum.{edge_sum};
ghost use Rattle.geom_core.specs.TaggedLists.{tris_of};
ghost use Rattle.dag_core.specs.declared.dags.Dag.{Dag};
ghost use Rattle.dag_core.specs.declared.heads.Heads.{Heads};
ghost use Rattle.dag_core.specs.Coarse.{is_coarse};
ghost use Rattle.dag_core.specs.Cuts.{IsNearSource, IsPath, MeetsOnce, cut_of, cut_tris, has_cluster, is_open};
ghost use Rattle.dag_core.specs.Members.{cluster_at, home};
ghost use Rattle.dag_core.specs.PageSets.{AreIn, IsClosed, IsNeed};
ghost use Rattle.dag_core.specs.Ranges.{IsInRange};
ghost use Rattle.dag_core.specs.Rules.{Checked};
ghost use Rattle.dag_core.specs.TriangleRules.{Sound, error_of};
ghost use Rattle.dag_core.specs.Triangles.{source_of, tris_at};

/// A law: what is coarse stays so at a greater or equal error in a box that holds the box.
pub fn coarse_grows()
    ensures coarse { (error greater : ℕ) (box wider : Cube) (lens : Lens) → error ≤ greater →
        IsTrue (is_under box.lo box.hi) → IsTrue (holds_box wider box) →
        IsTrue (is_coarse error box lens) → IsTrue (is_coarse greater wider lens) }
{}

/// A law: over a closed set of pages, the home of a cluster is open where its maker is.
pub fn open_passes_to_the_home()
    ensures open { (heads : Heads) (lens : Lens) (resident : List ℕ) (c maker : ℕ) → IsInRange heads →
        Checked heads → IsClosed heads resident → c < length heads.clusters →
        (cluster_at heads c).made ≡ Some maker → IsTrue (is_open heads lens resident maker) →
        IsTrue (is_open heads lens resident (home heads c)) }
{}

/// A law: over a closed set of pages, exactly one cluster of each path is in the cut. Over a set that isn't closed that
/// is false of some path: of the chain in `proofs/CutLawExamples.antt`, which meets the cut twice.
pub fn each_path_meets_the_cut_once()
    ensures once { (heads : Heads) (lens : Lens) (resident path : List ℕ) → IsInRange heads →
        Checked heads → IsClosed heads resident → IsPath heads path →
        MeetsOnce (cut_of heads lens resident) path }
    ensures false_without { (heads : Heads) × (lens : Lens) × (resident : List ℕ) × (path : List ℕ) ×
        IsInRange heads × Checked heads × IsPath heads path ×
        (MeetsOnce (cut_of heads lens resident) path → ⊥) }
{}

/// A law: the cut of a sound DAG over a closed set of pages has the edge sums of the source mesh, at every pair of
/// points.
pub fn cuts_keep_edge_sums()
    ensures sums { (dag : Dag) (lens : Lens) (resident : List ℕ) → Sound dag → IsClosed dag.heads resident →
        (u v : Pt) →
        edge_sum (cut_tris (λ c. tris_of (tris_at dag c)) (cut_of dag.heads lens resident)) u v
        ≡ edge_sum (source_of dag) u v }
{}

/// A law: each corner of a triangle of the cut lies within the error of its cluster's maker, 0 for a leaf, of the same
/// corner of its source triangle, by the Chebyshev distance.
pub fn corners_stay_within()
    ensures within { (dag : Dag) (lens : Lens) (resident : List ℕ) (c : ℕ) (other : Tri) → Sound dag →
        IsTrue (has_cluster (cut_of dag.heads lens resident) c) →
        All (IsNearSource dag (error_of dag.heads c) other) (tris_at dag c) }
{}

/// A law: with the pages that a lens needs, and others or not, the cut is that with every page resident.
pub fn need_is_enough()
    ensures enough { (heads : Heads) (lens : Lens) (need resident : List ℕ) → IsInRange heads →
        Checked heads → IsNeed heads lens need → AreIn need resident →
        cut_of heads lens resident ≡ cut_of heads lens (range_with_len 0 heads.pages) }
{}

/// A law: where the source mesh is closed, in that all its edge sums are 0, so is each cut over a closed set of pages.
pub fn closed_meshes_stay_closed()
    ensures closed { (dag : Dag) (lens : Lens) (resident : List ℕ) → Sound dag → IsClosed dag.heads resident →
        ((u v : Pt) → edge_sum (source_of dag) u v ≡ pos 0) → (u v : Pt) →
        edge_sum (cut_tris (λ c. tris_of (tris_at dag c)) (cut_of dag.heads lens resident)) u v ≡ pos 0 }
{}
