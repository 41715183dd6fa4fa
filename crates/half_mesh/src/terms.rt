ghost use Rattle.std.specs.Prelude.{◌≡◌, ◌++◌, All, FitsSigned, OnOk, length, flat_map};
ghost use Rattle.std.specs.Int.{w32};
ghost use Rattle.half_mesh.specs.Terms.{term_of, terms_of, terms_in, unless_cancelled, IsByEdge, AreSmall, IsSumOf};

use crate::edges::Edge;
use geom_core::{Memory, Pt, Tri};
use std::cmp::Ordering;

/// The sum of an edge that cancels.
pub(crate) const CANCELLED: i32 = 0;

/// A term of the sum of an edge: one use of the edge by a triangle, or the sum of the edge in a list.
#[derive(Clone, Copy, Debug)]
pub(crate) struct EdgeTerm {
    /// The edge.
    pub edge: Edge,
    /// The number of uses from `u` to `v` less the number of uses from `v` to `u`.
    pub sum: i32,
}

/// Appends the term of the edge from `from` to `to`, unless both are one point.
fn push_term(terms: &mut Vec<EdgeTerm>, from: Pt, to: Pt) -> Result<(), Memory>
    ensures { OnOk result (terms.new.items ≡ terms.old.items ++ term_of (from, to)) }
{
    match from.cmp(&to) {
        Ordering::Less => terms.push(EdgeTerm {
            edge: Edge { u: from, v: to },
            sum: 1,
        })?,
        Ordering::Greater => terms.push(EdgeTerm {
            edge: Edge { u: to, v: from },
            sum: -1,
        })?,
        Ordering::Equal => {}
    }
    Ok(())
}

/// Appends the terms of the triangle's three edges.
fn push_terms(terms: &mut Vec<EdgeTerm>, tri: Tri) -> Result<(), Memory>
    ensures { OnOk result (terms.new.items ≡ terms.old.items ++ terms_of tri) }
{
    push_term(terms, tri.a, tri.b)?;
    push_term(terms, tri.b, tri.c)?;
    push_term(terms, tri.c, tri.a)?;
    Ok(())
}

/// Replaces the contents of `terms` by the terms of these triangles, in order.
pub(crate) fn list_terms(terms: &mut Vec<EdgeTerm>, tris: &[Tri]) -> Result<(), Memory>
    ensures { OnOk result (terms.new.items ≡ flat_map terms_of tris.now) }
{
    terms.clear();
    for tri in tris {
        push_terms(terms, *tri)?;
    }
    Ok(())
}

/// Appends each edge with the sum at its place.
pub(crate) fn push_sums(
    terms: &mut Vec<EdgeTerm>,
    edges: &[Edge],
    sums: &[i32],
) -> Result<(), Memory>
    requires one_each { length sums.now ≡ length edges.now }
    requires small { All (FitsSigned w32) sums.now }
    ensures { OnOk result (terms.new.items ≡ terms.old.items ++ terms_in edges.now sums.now) }
{
    for (place, edge) in edges.iter().enumerate() {
        terms.push(EdgeTerm {
            edge: *edge,
            sum: sums[place],
        })?;
    }
    Ok(())
}

/// Appends the term, unless its sum is 0.
pub(crate) fn push_sum(sums: &mut Vec<EdgeTerm>, term: EdgeTerm) -> Result<(), Memory>
    ensures { OnOk result (sums.new.items ≡ sums.old.items ++ unless_cancelled term) }
{
    if term.sum != CANCELLED {
        sums.push(term)?;
    }
    Ok(())
}

/// Replaces the contents of `sums` by the terms added up, edge by edge. Sums wrap at the ends of an `i32`,
/// so that a sum which fits is right whatever the order of its terms.
fn add_up(sums: &mut Vec<EdgeTerm>, terms: &[EdgeTerm]) -> Result<(), Memory>
    requires sorted { IsByEdge terms.now }
    requires small { AreSmall terms.now }
    ensures { OnOk result (IsSumOf terms.now sums.new.items) }
{
    sums.clear();
    let Some((first, later)) = terms.split_first() else {
        return Ok(());
    };
    let mut edge = first.edge;
    let mut sum = first.sum;
    for term in later {
        if term.edge == edge {
            sum = sum.wrapping_add(term.sum);
        } else {
            push_sum(sums, EdgeTerm { edge, sum })?;
            edge = term.edge;
            sum = term.sum;
        }
    }
    push_sum(sums, EdgeTerm { edge, sum })?;
    Ok(())
}

/// Replaces the contents of `sums` by the terms added up, edge by edge, and sorts the terms. The sort takes a buffer.
pub(crate) fn sort_and_add_up(
    sums: &mut Vec<EdgeTerm>,
    terms: &mut Vec<EdgeTerm>,
) -> Result<(), Memory>
    requires small { AreSmall terms.old.items }
    ensures { OnOk result (IsSumOf terms.old.items sums.new.items) }
{
    terms.sort_by_key(|term| term.edge)?;
    add_up(sums, terms)?;
    Ok(())
}
