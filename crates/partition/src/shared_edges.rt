ghost use Rattle.std.specs.Prelude.{◌≡◌, ◌+◌, ◌<◌, ◌≤◌, length, [], slice_index_or, slice_range};
ghost use Rattle.partition.specs.Internal.SharedEdges.{AreStarts, shared_edges_of};

use std::marker::Model;

/// For each edge the items that have it, any two of which are neighbours. A contract sees the list of these
/// lists.
#[derive(Drop)]
pub(crate) struct SharedEdges {
    /// The items of all edges, edge after edge.
    items: Vec<u32>,
    /// Where each edge begins in `items`, and last where the last edge ends.
    starts: Vec<usize>,
}

/// The items from `start` up to `end`.
fn between(items: &[u32], start: usize, end: usize) -> &[u32]
    requires ordered { start ≤ end }
    requires within { end ≤ length items.now }
    ensures { result.now ≡ slice_range items.now start end }
{
    &items[start..end]
}

impl Model for SharedEdges {
    ghost use Rattle.std.specs.Prelude.{List, ℕ};
    ghost use Rattle.partition.specs.Internal.SharedEdges.{AreStarts, shared_edges_of};

    ghost Value = { List (List ℕ) };

    ghost view = { λ r. shared_edges_of r.items.items r.starts.items };

    ghost invariant = { λ r. AreStarts r.items.items r.starts.items };
}

impl SharedEdges {
    /// The shared edges whose items follow one another in `items`. Takes no memory.
    pub fn of(items: Vec<u32>, starts: Vec<usize>) -> SharedEdges
        requires { AreStarts items.items starts.items }
        ensures { result ≡ shared_edges_of items.items starts.items }
    {
        SharedEdges { items, starts }
    }

    /// The number of edges.
    pub fn len(&self) -> usize
        ensures { result ≡ length self.now }
    {
        self.starts.len().saturating_sub(1)
    }

    /// The items that have the edge of this number.
    pub fn items_on(&self, edge: usize) -> &[u32]
        requires { edge < length self.now }
        ensures { result.now ≡ slice_index_or self.now edge [] }
    {
        between(&self.items, self.starts[edge], self.starts[edge + 1])
    }
}
