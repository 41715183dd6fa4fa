ghost use Rattle.std.specs.Prelude.{◌≡◌, ◌+◌, ◌<◌, [], ◌∷◌, ◌++◌, Some, None, length, slice_index_or, slice_set, OnOk, IfOk, All};
ghost use Rattle.partition.specs.Internal.EdgesOfItem.{ListsEdges, ListsEdgesUpTo};
ghost use Rattle.partition.specs.Internal.SharedEdges.{IsSharedEdge};

use crate::shared_edges::SharedEdges;
use geom_core::Memory;
use std::alloc::Global;

/// That an item has a shared edge.
#[derive(Clone, Copy)]
pub(crate) struct ItemEdge {
    /// The number of the edge.
    pub edge: usize,
    /// The position of the same item's entry before this one, if there is one.
    pub previous: Option<usize>,
}

/// For each item the shared edges that it has: a linked list of entries, from its last one back.
#[derive(Drop)]
pub(crate) struct EdgesOfItem {
    /// For each item the position of its last entry.
    pub last: Vec<Option<usize>>,
    /// The entries of all items, edge after edge.
    pub item_edges: Vec<ItemEdge>,
}

impl EdgesOfItem {
    /// The shared edges of each of the items below `count`.
    pub fn of(alloc: Global, count: u32, shared: &SharedEdges) -> Result<EdgesOfItem, Memory>
        requires { All (IsSharedEdge count) shared.now }
        ensures { IfOk result (ListsEdges shared.now count) }
    {
        let mut edges_of_item = EdgesOfItem {
            last: vec![in alloc; None; count as usize]?,
            item_edges: Vec::new(alloc),
        };
        for edge in 0..shared.len() {
            edges_of_item.add_edge(count, shared, edge)?;
        }
        Ok(edges_of_item)
    }

    /// Appends an entry for each item of the edge.
    fn add_edge(&mut self, count: u32, shared: &SharedEdges, edge: usize) -> Result<(), Memory>
        requires shared { All (IsSharedEdge count) shared.now }
        requires edge { edge < length shared.now }
        requires before { ListsEdgesUpTo shared.now count edge 0 self.old.last.items self.old.item_edges.items }
        ensures { OnOk result
            (ListsEdgesUpTo shared.now count (edge + 1) 0 self.new.last.items self.new.item_edges.items) }
    {
        for item in shared.items_on(edge) {
            self.add(edge, *item)?;
        }
        Ok(())
    }

    /// Appends an entry for the item, which has the edge.
    fn add(&mut self, edge: usize, item: u32) -> Result<(), Memory>
        requires { item < length self.old.last.items }
        ensures last { OnOk result
            (self.new.last.items ≡ slice_set self.old.last.items item
            (Some (length self.old.item_edges.items))) }
        ensures item_edges { OnOk result (self.new.item_edges.items ≡ self.old.item_edges.items ++
            record { edge = edge; previous = slice_index_or self.old.last.items item None } ∷ []) }
    {
        let item_edge = ItemEdge {
            edge,
            previous: self.last[item as usize],
        };
        self.last[item as usize] = Some(self.item_edges.len());
        self.item_edges.push(item_edge)?;
        Ok(())
    }
}
