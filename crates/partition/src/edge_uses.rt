ghost use Rattle.std.specs.Prelude.{◌≡◌, ◌≤◌, ◌<◌, ◌^◌, ℕ, IfOk, All, IsPermutation, map, length};
ghost use Rattle.geom_core.specs.Limits.{IsGridPoint};
ghost use Rattle.partition.specs.Groups.{IsGridEdge};
ghost use Rattle.partition.specs.Internal.SharedEdges.{IsSharedEdge, are_adjacent};
ghost use Rattle.partition.specs.Internal.EdgeUses.{AreInOrder, HasEdgeKey, IsUseBelow, begins_edge, edge_of, edge_starts, are_adjacent_in, on_one_edge, use_of};

use crate::keys::{low_between, morton};
use crate::shared_edges::SharedEdges;
use geom_core::{Memory, Pt};
use half_mesh::Edge;
use std::alloc::Global;

/// That an item, given by its rank, has an edge. Ordered by key, then by edge, then by rank: so uses of one edge
/// follow one another, and uses of near edges are near one another in memory.
#[derive(Clone, Copy, Debug, PartialEq, Eq, PartialOrd, Ord)]
pub(crate) struct EdgeUse {
    /// The Morton key of the low corner of the edge's box.
    pub key: u64,
    /// The edge, without its direction.
    pub edge: Edge,
    /// The rank of the item that the edge belongs to.
    pub rank: u32,
}

/// The use, by the item of this rank, of the edge between two points, whichever comes first.
pub(crate) fn use_between(p: Pt, q: Pt, rank: u32) -> EdgeUse
    requires p { IsGridPoint p }
    requires q { IsGridPoint q }
    ensures { result ≡ use_of rank (p, q) }
{
    let edge = edge_between(p, q);
    EdgeUse {
        key: morton(low_between(edge.u, edge.v)),
        edge,
        rank,
    }
}

/// The edge between two points without its direction: the lesser point first.
fn edge_between(p: Pt, q: Pt) -> Edge
    requires p { IsGridPoint p }
    requires q { IsGridPoint q }
    ensures edge { result ≡ edge_of (p, q) }
    ensures edge_range { IsGridEdge result }
{
    if p <= q {
        Edge { u: p, v: q }
    } else {
        Edge { u: q, v: p }
    }
}

/// The shared edges of these uses: for each edge the items that use it.
pub(crate) fn shared_edges_of_uses(
    alloc: Global,
    uses: Vec<EdgeUse>,
    count: u32,
) -> Result<SharedEdges, Memory>
    requires { All (IsUseBelow count) uses.items }
    ensures adjacency { IfOk result (λ shared. (i j : ℕ) → are_adjacent shared i j ≡ are_adjacent_in uses.items i j) }
    ensures sound { IfOk result (λ shared. All (IsSharedEdge count) shared) }
{
    let mut uses = uses;
    sort_uses(&mut uses);
    shared_edges_in_order(alloc, &uses, count)
}

/// Sorts the edge uses.
fn sort_uses(uses: &mut Vec<EdgeUse>)
    requires { All HasEdgeKey uses.old.items }
    ensures all { IsPermutation uses.old.items uses.new.items }
    ensures in_order { AreInOrder uses.new.items }
{
    uses.sort_unstable();
}

/// The shared edges of edge uses that are sorted.
fn shared_edges_in_order(alloc: Global, uses: &[EdgeUse], count: u32) -> Result<SharedEdges, Memory>
    requires in_order { AreInOrder uses.now }
    requires rank_range { All (IsUseBelow count) uses.now }
    ensures adjacency { IfOk result (λ shared. (i j : ℕ) → are_adjacent shared i j ≡ are_adjacent_in uses.now i j) }
    ensures sound { IfOk result (λ shared. All (IsSharedEdge count) shared) }
{
    let items = ranks_of(alloc, uses)?;
    let starts = starts_of(alloc, uses)?;
    Ok(SharedEdges::of(items, starts))
}

/// The ranks of the edge uses, in their order.
fn ranks_of(alloc: Global, uses: &[EdgeUse]) -> Result<Vec<u32>, Memory>
    ensures { IfOk result (λ ranks. ranks.items ≡ map (λ edge_use. edge_use.rank) uses.now) }
{
    Ok(uses.iter().map(|edge_use| edge_use.rank).collect(alloc)?)
}

/// Where each edge begins among the uses, and last the number of uses.
fn starts_of(alloc: Global, uses: &[EdgeUse]) -> Result<Vec<usize>, Memory>
    ensures { IfOk result (λ starts. starts.items ≡ edge_starts uses.now) }
{
    let mut starts = Vec::new(alloc);
    for place in 0..uses.len() {
        if begins_edge(uses, place) {
            starts.push(place)?;
        }
    }
    starts.push(uses.len())?;
    Ok(starts)
}

/// Whether the use at `place` is the first one of its edge.
fn begins_edge(uses: &[EdgeUse], place: usize) -> bool
    requires { place < length uses.now }
    ensures { result ≡ begins_edge uses.now place }
{
    place == 0 || !are_on_one_edge(uses[place - 1], uses[place])
}

/// Whether both are uses of one edge.
fn are_on_one_edge(s: EdgeUse, t: EdgeUse) -> bool
    ensures { result ≡ on_one_edge s t }
{
    s.edge == t.edge
}
