//! Laws of the bytes of a page file, as functions without a body: each clause holds for all that it names.

ghost use Rattle.std.specs.Prelude.{◌≡◌, ◌≤◌, ◌<◌, ℕ, List, None, drop, length, take};
ghost use Rattle.dag_core.specs.declared.counts.Counts.{Counts};
ghost use Rattle.dag_core.specs.declared.dags.Dag.{Dag};
ghost use Rattle.dag_core.specs.declared.heads.Heads.{Heads};
ghost use Rattle.dag_core.specs.Pages.{tris_on};
ghost use Rattle.dag_core.specs.Ranges.{counts_of};
ghost use Rattle.dag_core.specs.TriangleRules.{IsLaidOut};
ghost use Rattle.page_codec.specs.declared.directories.Directory.{Directory};
ghost use Rattle.page_codec.specs.declared.pages.Page.{Page};
ghost use Rattle.page_codec.specs.Breaks.{first_directory_break, first_page_break};
ghost use Rattle.page_codec.specs.Fits.{FitsDirectory, FitsPage};
ghost use Rattle.page_codec.specs.Numbers.{IsBytes};
ghost use Rattle.page_codec.specs.Reading.{directory_of, header_of, page_of};
ghost use Rattle.page_codec.specs.Spelling.{directory_bytes, directory_in, directory_length, file_bytes, header_in, page_at, page_bytes, page_in};

use crate::sizes::HEADER_BYTES;
use geom_core::limits::{MAX_TRIANGLES, PAGE_BYTES, PAGE_TRIANGLES};

/// A page that fits its heads breaks no rule as it is spelt, and is what its spelling reads as.
pub fn pages_read_back()
    ensures no_break { (heads : Heads) (page : Page) → heads.sources ≤ MAX_TRIANGLES →
        FitsPage heads page → first_page_break heads page.number (page_bytes page) ≡ None }
    ensures page { (heads : Heads) (page : Page) → heads.sources ≤ MAX_TRIANGLES →
        FitsPage heads page → page_of heads page.number (page_bytes page) ≡ page }
{}

/// Two pages of one number that fit the heads and have one spelling are one page. Two texts without a break that
/// read as one page are one text.
pub fn one_page_spelling()
    ensures pages { (heads : Heads) (some other : Page) → heads.sources ≤ MAX_TRIANGLES →
        FitsPage heads some → FitsPage heads other → some.number ≡ other.number →
        page_bytes some ≡ page_bytes other → some ≡ other }
    ensures texts { (heads : Heads) (p : ℕ) (some other : List ℕ) →
        length some ≡ PAGE_BYTES → length other ≡ PAGE_BYTES → IsBytes some → IsBytes other →
        tris_on heads p ≤ PAGE_TRIANGLES →
        first_page_break heads p some ≡ None → first_page_break heads p other ≡ None →
        page_of heads p some ≡ page_of heads p other → some ≡ other }
{}

/// A directory that fits breaks no rule as it is spelt, and is what its spelling reads as.
pub fn directories_read_back()
    ensures no_break { (directory : Directory) → FitsDirectory directory →
        first_directory_break (counts_of directory.heads) (directory_bytes directory) ≡ None }
    ensures directory { (directory : Directory) → FitsDirectory directory →
        directory_of (counts_of directory.heads) (directory_bytes directory) ≡ directory }
{}

/// Two directories of the same counts that fit and have one spelling are one directory. Two texts without a break
/// that read as one directory are one text.
pub fn one_directory_spelling()
    ensures directories { (some other : Directory) → FitsDirectory some → FitsDirectory other →
        counts_of some.heads ≡ counts_of other.heads →
        directory_bytes some ≡ directory_bytes other → some ≡ other }
    ensures texts { (counts : Counts) (some other : List ℕ) →
        length some ≡ directory_length counts → length other ≡ directory_length counts →
        IsBytes some → IsBytes other →
        first_directory_break counts some ≡ None → first_directory_break counts other ≡ None →
        directory_of counts some ≡ directory_of counts other → some ≡ other }
{}

/// The header, the directory and each page of a laid-out DAG's file read back what the DAG holds.
pub fn files_read_back()
    ensures header { (dag : Dag) → IsLaidOut dag →
        header_of (take HEADER_BYTES (file_bytes dag)) ≡ header_in dag }
    ensures directory { (dag : Dag) → IsLaidOut dag →
        directory_of (counts_of dag.heads) (take (directory_length (counts_of dag.heads))
        (drop HEADER_BYTES (file_bytes dag))) ≡ directory_in dag }
    ensures page { (dag : Dag) → IsLaidOut dag → (p : ℕ) → p < dag.heads.pages →
        page_of dag.heads p (take PAGE_BYTES (drop (page_at (counts_of dag.heads) p)
        (file_bytes dag))) ≡ page_in dag p }
{}
