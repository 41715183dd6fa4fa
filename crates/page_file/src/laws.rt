//! Laws of openings, as functions without a body: each clause holds for all that it names.

ghost use Rattle.std.specs.Prelude.{◌≡◌, ◌++◌, ℕ, List, Ok, map};
ghost use Rattle.std.specs.List.{range_with_len};
ghost use Rattle.dag_core.specs.declared.dags.Dag.{Dag};
ghost use Rattle.dag_core.specs.Ranges.{counts_of};
ghost use Rattle.dag_core.specs.TriangleRules.{IsLaidOut, Sound};
ghost use Rattle.page_codec.specs.Spelling.{directory_in, file_bytes, page_in};
ghost use Rattle.page_file.specs.Opening.{opening, root_pages};
ghost use Rattle.page_file.specs.Verifying.{verifying};

/// The file of a laid-out DAG opens: with the DAG's heads, the digests of its pages, and its root pages. Bytes after
/// the last page change nothing.
pub fn written_files_open()
    ensures opened { (dag : Dag) (more : List ℕ) → IsLaidOut dag →
        opening root_pages (file_bytes dag ++ more) ≡ Ok (record {
          directory = directory_in dag;
          roots = map (page_in dag) (range_with_len 0 dag.heads.roots);
        }) }
{}

/// The file of a sound DAG verifies: the answer is its counts. Bytes after the last page change nothing. A DAG that is
/// built of a mesh and laid out on pages is sound, by the laws of `dag_build` and `layout_laws`.
pub fn built_files_verify()
    ensures verified { (dag : Dag) (more : List ℕ) → Sound dag →
        verifying (file_bytes dag ++ more) ≡ Ok (counts_of dag.heads) }
{}
