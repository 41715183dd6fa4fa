ghost use Rattle.std.specs.Prelude.{◌≡◌, ◌≤◌, ℕ, List, IfErr, IfOk, Ok, Some};
ghost use Rattle.dag_core.specs.declared.counts.Counts.{Counts};
ghost use Rattle.span_io.specs.Faults.{Rose};
ghost use Rattle.page_file.specs.declared.open_faults.OpenFault.TheVariants.{Memory};
ghost use Rattle.page_file.specs.declared.verify_faults.VerifyFault.TheVariants.{Open};
ghost use Rattle.page_file.specs.SoundFiles.{HoldsSound, IsSoundFile};
ghost use Rattle.page_file.specs.VerifyAnswers.{Verifies, VerifyDigestsDiffer, VerifyRefuses};

use crate::cluster_tris::cluster_tris;
use crate::open::open_directory;
use crate::pages::open_first_pages;
use crate::verify_faults::VerifyFault;
use dag_core::{Counts, Dag};
use dag_soundness::check_triangles;
use page_codec::Directory;
use page_sources::PageSource;
use std::alloc::Global;

/// Verifies a page file: opens it with all its pages, each page in one read, ascending, and then checks rules 6 to 8
/// of the DAG that they spell. Returns the file's counts.
///
/// The answer is `Ok` exactly where the bytes are the file of a sound DAG, perhaps with others after it, unless a read
/// fails or memory runs out. `Broken` is the first break: the least rule that is broken, at its least index. Bytes
/// after the last page are not read.
///
/// If the source doesn't tell its bytes, the answer is that of some bytes.
pub fn verify_pages<P: PageSource>(alloc: Global, src: &mut P) -> Result<Counts, VerifyFault>
    ensures verified { IfOk result (λ counts. Verifies (P.holds src.old) (Ok counts)) }
    ensures sound { IfOk result (HoldsSound (P.holds src.old)) }
    ensures refused { IfErr result (VerifyRefuses (P.holds src.old)
        (P.faults src.old) (P.faults src.new)) }
    ensures complete { (bytes : List ℕ) (counts : Counts) → P.holds src.old ≡ Some bytes →
        IsSoundFile counts bytes → (Rose (P.faults src.old) (P.faults src.new) → ⊥) →
        IfErr result (λ fault. fault ≡ Open Memory) }
    ensures digests { IfErr result VerifyDigestsDiffer }

    ensures unchanged { P.holds src.new ≡ P.holds src.old }
    ensures fault_count { P.faults src.old ≤ P.faults src.new }
{
    let directory = open_directory(alloc, src)?;
    let pages = open_first_pages(alloc, src, &directory, directory.heads.pages)?;
    let tris = cluster_tris(alloc, &directory, pages)?;
    let Directory { heads, .. } = directory;
    let dag = Dag { heads, tris };
    check_triangles(alloc, &dag)?;
    Ok(dag.heads.counts())
}
