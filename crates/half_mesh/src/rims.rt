ghost use Rattle.std.specs.Prelude.{◌≡◌, ◌≤◌, ◌↔◌, ◌++◌, OnOk, IfOk, IsTrue, List, length, map, flat_map};
ghost use Rattle.std.specs.Prelude.{AllPairs, Contains};
ghost use Rattle.std.specs.declared.cmp.Ordering.TheVariants.{Less};
ghost use Rattle.geom_core.specs.declared.limits.TheConstants.{MAX_SUMMED_TRIANGLES};
ghost use Rattle.geom_core.specs.declared.points.Pt.{Pt};
ghost use Rattle.geom_core.specs.declared.triangles.Tri.{Tri};
ghost use Rattle.geom_core.specs.EdgeSum.{edge_sum, OnRim};
ghost use Rattle.geom_core.specs.Order.{point_cmp};
ghost use Rattle.half_mesh.specs.declared.cancelling.TheConstants.{SLOTS};
ghost use Rattle.half_mesh.specs.declared.edges.Edge.{Edge};
ghost use Rattle.half_mesh.specs.Rim.{EdgeSums, IsAscending, IsRim, IsRimOf, AreRimsOf, HaveSmallSums};
ghost use Rattle.half_mesh.specs.Rim.{all_of, sum_in, ends_of};
ghost use Rattle.half_mesh.specs.Terms.{AddUpAlike, AreSmall, total_at, terms_of, terms_in};
ghost use Rattle.std.specs.Int.{w32, int_wrap};

use crate::cancelling::{EMPTY, SLOTS, push_held, put_terms};
use crate::edges::Edge;
use crate::terms::{EdgeTerm, list_terms, push_sums, sort_and_add_up};
use geom_core::limits::TRIANGLES_PER_CLUSTER;
use geom_core::{Memory, Pt, Tri};
use std::alloc::Global;
use std::marker::Model;

/// The most triangles whose edges are listed at once: as many as a cluster has.
const PIECE: usize = TRIANGLES_PER_CLUSTER as usize;

/// The edges of fewer triangles aren't worth a table.
const FEWEST: usize = 16;

/// The edges of a triangle.
const EDGES: usize = 3;

/// The rim of a list of triangles, its boundary edges: those whose sum isn't 0, ascending, each with its sum. A
/// contract sees the edges and the sums (`EdgeSums`), and says `IsRimOf tris rim.edges rim.sums` of a list.
#[derive(Drop)]
pub struct Rim {
    edges: Vec<Edge>,
    sums: Vec<i32>,
}

impl Model for Rim {
    ghost use Rattle.std.specs.Prelude.{All, FitsSigned};
    ghost use Rattle.std.specs.Int.{w32};
    ghost use Rattle.half_mesh.specs.Rim.{EdgeSums, IsRim, edge_sums};

    ghost Value = { EdgeSums };

    ghost view = { λ r. edge_sums r.edges.items r.sums.items };

    ghost invariant = { λ r. IsRim r.edges.items r.sums.items × All (FitsSigned w32) r.sums.items };
}

impl Rim {
    /// Returns the rim of these triangles.
    pub fn of(alloc: Global, tris: &[Tri]) -> Result<Rim, Memory>
        requires triangle_limit { length tris.now ≤ MAX_SUMMED_TRIANGLES }
        ensures rim { IfOk result (λ rim. IsRimOf tris.now rim.edges rim.sums) }
    {
        let mut terms = list_uncancelled(alloc, tris)?;
        let rim = Rim::from_terms(alloc, &mut terms)?;
        Ok(rim)
    }

    /// Returns the rim of joined lists of triangles, from the rims of these lists alone. Parts in any order, and
    /// empty ones, are fine. Rims of lists with together at most `MAX_SUMMED_TRIANGLES` triangles have small sums.
    pub fn joined(alloc: Global, parts: &[&Rim]) -> Result<Rim, Memory>
        requires sum_range { HaveSmallSums (map (λ part. part.now) parts.now) }
        ensures rim { IfOk result (λ rim. (lists : List (List Tri)) →
            AreRimsOf lists (map (λ part. part.now) parts.now) → IsRimOf (all_of lists) rim.edges rim.sums) }
    {
        let mut terms = Vec::new(alloc);
        for part in parts {
            part.push_terms(&mut terms)?;
        }
        let rim = Rim::from_terms(alloc, &mut terms)?;
        Ok(rim)
    }

    /// Appends each edge with its sum.
    fn push_terms(&self, terms: &mut Vec<EdgeTerm>) -> Result<(), Memory>
        ensures terms { OnOk result (terms.new.items ≡ terms.old.items ++ terms_in self.now.edges self.now.sums) }
        ensures small { AreSmall (terms_in self.now.edges self.now.sums) }
    {
        push_sums(terms, &self.edges, &self.sums)?;
        Ok(())
    }

    /// Whether both rims have the same edges with the same sums, so that their lists of triangles have the same sums
    /// at all pairs of points.
    pub fn has_same(&self, other: &Rim) -> bool
        ensures same { IsTrue result ↔ self.now ≡ other.now }
        ensures sums { (tris others : List Tri) → IsRimOf tris self.now.edges self.now.sums →
            IsRimOf others other.now.edges other.now.sums →
            IsTrue result ↔ ((u v : Pt) → edge_sum tris u v ≡ edge_sum others u v) }
    {
        self.edges.as_slice() == other.edges.as_slice()
            && self.sums.as_slice() == other.sums.as_slice()
    }

    /// Returns the rim with these terms, which it sorts.
    fn from_terms(alloc: Global, terms: &mut Vec<EdgeTerm>) -> Result<Rim, Memory>
        requires small { AreSmall terms.old.items }
        ensures rim { IfOk result (λ rim. IsRim rim.edges rim.sums) }
        ensures sums { IfOk result (λ rim.
            (e : Edge) → sum_in e rim.edges rim.sums ≡ int_wrap w32 (total_at e terms.old.items)) }
    {
        let mut total = Vec::new(alloc);
        sort_and_add_up(&mut total, terms)?;
        let mut edges = Vec::with_capacity(alloc, total.len())?;
        let mut sums = Vec::with_capacity(alloc, total.len())?;
        for term in &total {
            edges.push(term.edge)?;
            sums.push(term.sum)?;
        }
        Ok(Rim { edges, sums })
    }

    /// Returns the edges, ascending.
    pub fn edges(&self) -> &[Edge]
        ensures edges { result.now ≡ self.now.edges }
        ensures ascending { IsAscending result.now }
    {
        self.edges.as_slice()
    }

    /// Returns the sums, each at the place of its edge.
    pub fn sums(&self) -> &[i32]
        ensures sums { result.now ≡ self.now.sums }
        ensures one_each { length result.now ≡ length self.now.edges }
    {
        self.sums.as_slice()
    }

    /// Returns the points on the rim, ascending, each once: both ends of its edges.
    pub fn points(&self, alloc: Global) -> Result<Vec<Pt>, Memory>
        ensures ascending { IfOk result (λ points. AllPairs (λ p q. point_cmp p q ≡ Less) points.items) }
        ensures ends { IfOk result (λ points.
            (p : Pt) → Contains points.items p ↔ Contains (ends_of self.now.edges) p) }
        ensures on_rim { IfOk result (λ points. (tris : List Tri) → IsRimOf tris self.now.edges self.now.sums →
            (p : Pt) → Contains points.items p ↔ OnRim tris p) }
    {
        let mut points = list_ends(alloc, &self.edges)?;
        points.sort_unstable();
        points.dedup();
        Ok(points)
    }
}

/// Returns both points of each edge.
fn list_ends(alloc: Global, edges: &[Edge]) -> Result<Vec<Pt>, Memory>
    ensures { IfOk result (λ points. points.items ≡ ends_of edges.now) }
{
    let mut points = Vec::new(alloc);
    for edge in edges {
        points.push(edge.u)?;
        points.push(edge.v)?;
    }
    Ok(points)
}

/// Returns terms with the same sums as the edges of these triangles. Where there are enough of them, terms of one edge
/// meet in a table of slots; most of a mesh's edges cancel there, and aren't sorted.
fn list_uncancelled(alloc: Global, tris: &[Tri]) -> Result<Vec<EdgeTerm>, Memory>
    ensures small { IfOk result (λ terms. AreSmall terms.items) }
    ensures sums { IfOk result (λ terms. AddUpAlike terms.items (flat_map terms_of tris.now)) }
{
    let mut terms = Vec::new(alloc);
    if tris.len() < FEWEST {
        list_terms(&mut terms, tris)?;
        return Ok(terms);
    }
    let mut slots = vec![in alloc; EMPTY; SLOTS]?;
    cancel_edges(alloc, &mut slots, &mut terms, tris)?;
    Ok(terms)
}

/// Puts the terms of the triangles' edges into the table, and appends those that lose their slots, and what the slots
/// hold in the end, to `left`.
fn cancel_edges(
    alloc: Global,
    slots: &mut [EdgeTerm],
    left: &mut Vec<EdgeTerm>,
    tris: &[Tri],
) -> Result<(), Memory>
    requires slots { length slots.old ≡ SLOTS }
    requires small { AreSmall slots.old }
    requires small_left { AreSmall left.old.items }
    ensures small_left { OnOk result (AreSmall left.new.items) }
    ensures sums { OnOk result (AddUpAlike left.new.items
        ((left.old.items ++ slots.old) ++ flat_map terms_of tris.now)) }
{
    let mut listed = Vec::with_capacity(alloc, EDGES * tris.len().min(PIECE))?;
    let mut rest = tris;
    while !rest.is_empty() {
        let (piece, later) = rest.split_at(rest.len().min(PIECE));
        list_terms(&mut listed, piece)?;
        put_terms(slots, left, &listed)?;
        rest = later;
    }
    push_held(left, slots)?;
    Ok(())
}

#[cfg(test)]
mod tests {
    use super::*;
    use std::test::Fail;

    /// Squares along a side of the patch.
    const SIDE: u8 = 8;

    /// A corner of a square of the patch: `right` and `up` are 0 or 1.
    fn corner(i: u8, j: u8, right: u8, up: u8) -> Pt {
        Pt {
            x: 64 * (i32::from(i) + i32::from(right)),
            y: 64 * (i32::from(j) + i32::from(up)),
            z: 0,
        }
    }

    /// Appends the two triangles of a square.
    fn push_square(tris: &mut Vec<Tri>, i: u8, j: u8) -> Result<(), Memory> {
        let a = corner(i, j, 0, 0);
        let c = corner(i, j, 1, 1);
        tris.push(Tri {
            a,
            b: corner(i, j, 1, 0),
            c,
        })?;
        tris.push(Tri {
            a,
            b: c,
            c: corner(i, j, 0, 1),
        })?;
        Ok(())
    }

    #[test]
    fn most_edges_of_a_patch_cancel_before_the_sort(rt: HostRuntime) -> Result<(), Fail> {
        let mut tris = Vec::new(rt.alloc());
        for i in 0..SIDE {
            for j in 0..SIDE {
                push_square(&mut tris, i, j).map_err(|_| "memory")?;
            }
        }
        let terms = list_uncancelled(rt.alloc(), &tris).map_err(|_| "memory")?;
        // 384 are listed, and 32 edges lie on the rim
        let left = terms.len();
        assert!(rt; left < 64, "{left} terms are left");
        Ok(())
    }
}
