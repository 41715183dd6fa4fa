ghost use Rattle.std.specs.Prelude.{◌≡◌, ◌<◌, ◌⊎◌, ℕ, Bool, List, [], length, slice_index_or, All, Contains, IfNone, IfOk, IfSome, OnOk};
ghost use Rattle.partition.specs.Internal.Frontiers.{AreCursors, HasLeastOfEach, AddsNeighbours, HasLeastOf, IsLeastLeft, IsPassed, Keeps, KeepsLeft, NoneLeft};
ghost use Rattle.partition.specs.Internal.EdgesOfItem.{ListsEdges};
ghost use Rattle.partition.specs.Internal.SharedEdges.{IsSharedEdge};

use crate::edges_of_item::EdgesOfItem;
use crate::min_queue::MinQueue;
use crate::shared_edges::SharedEdges;
use geom_core::Memory;
use std::alloc::Global;

/// The candidates for the next item: of each shared edge that touches the present batch, the least item that
/// isn't placed.
///
/// A shared edge gives its next candidate when one of its items is placed, and its cursor only moves on. An
/// item that has been placed meanwhile stays in the queue until it is popped.
#[derive(Drop)]
pub(crate) struct Frontier {
    /// For each shared edge, how many of its first items are known to be placed.
    pub cursors: Vec<usize>,
    /// The candidates, and items that have been placed meanwhile.
    pub queue: MinQueue,
}

/// Moves the cursor past placed items, and returns the item there: the least that isn't placed.
fn least_left(items: &[u32], cursor: &mut usize, placed: &[bool]) -> Option<u32>
    requires edge { IsSharedEdge (length placed.now) items.now }
    requires passed { IsPassed items.now placed.now cursor.old }
    ensures passed { IsPassed items.now placed.now cursor.new }
    ensures least { IfSome result (IsLeastLeft items.now placed.now) }
    ensures none_left { IfNone result (NoneLeft items.now placed.now) }
{
    while let Some(item) = items.get(*cursor) {
        if !placed[*item as usize] {
            return Some(*item);
        }
        *cursor += 1;
    }
    None
}

impl Frontier {
    /// The frontier of an empty batch.
    pub fn new(alloc: Global, shared: &SharedEdges) -> Result<Frontier, Memory>
        ensures cursors { IfOk result (λ frontier. (placed : List Bool) →
            AreCursors shared.now placed frontier.cursors.items) }
        ensures queue { IfOk result (λ frontier. frontier.queue ≡ []) }
    {
        Ok(Frontier {
            cursors: vec![in alloc; 0; shared.len()]?,
            queue: MinQueue::new(alloc),
        })
    }

    /// Queues the least item of the shared edge that isn't placed, if there is one.
    fn push_least(
        &mut self,
        shared: &SharedEdges,
        edge: usize,
        placed: &[bool],
    ) -> Result<(), Memory>
        requires shared { All (IsSharedEdge (length placed.now)) shared.now }
        requires edge { edge < length shared.now }
        requires cursors { AreCursors shared.now placed.now self.old.cursors.items }
        ensures cursors { OnOk result (AreCursors shared.now placed.now self.new.cursors.items) }
        ensures least_queued { OnOk result
            (HasLeastOf (slice_index_or shared.now edge []) placed.now self.new.queue) }
        ensures keeps { OnOk result (Keeps self.old.queue self.new.queue) }
        ensures adds { OnOk result ((item : ℕ) → Contains self.new.queue item →
            Contains self.old.queue item ⊎ Contains (slice_index_or shared.now edge []) item) }
    {
        match least_left(shared.items_on(edge), &mut self.cursors[edge], placed) {
            Some(item) => self.queue.push(item),
            None => Ok(()),
        }
    }

    /// Queues the least item that isn't placed of each shared edge that has the item.
    pub fn push_least_of_each(
        &mut self,
        shared: &SharedEdges,
        edges_of_item: &EdgesOfItem,
        item: u32,
        placed: &[bool],
    ) -> Result<(), Memory>
        requires shared { All (IsSharedEdge (length placed.now)) shared.now }
        requires edges_of_item { ListsEdges shared.now (length placed.now) edges_of_item.now }
        requires item { item < length placed.now }
        requires cursors { AreCursors shared.now placed.now self.old.cursors.items }
        ensures cursors { OnOk result (AreCursors shared.now placed.now self.new.cursors.items) }
        ensures least_queued { OnOk result (HasLeastOfEach shared.now placed.now self.new.queue item) }
        ensures keeps { OnOk result (Keeps self.old.queue self.new.queue) }
        ensures adds { OnOk result
            (AddsNeighbours shared.now item self.old.queue self.new.queue) }
    {
        let mut next = edges_of_item.last[item as usize];
        while let Some(place) = next {
            let item_edge = edges_of_item.item_edges[place];
            self.push_least(shared, item_edge.edge, placed)?;
            next = item_edge.previous;
        }
        Ok(())
    }

    /// Removes items up to the least one that isn't placed, and returns that one.
    pub fn pop(&mut self, placed: &[bool]) -> Option<u32>
        requires { All (λ item. item < length placed.now) self.old.queue }
        ensures least { IfSome result (IsLeastLeft self.old.queue placed.now) }
        ensures rest { IfSome result (λ item.
            KeepsLeft placed.now item self.old.queue self.new.queue) }
        ensures none_left { IfNone result (NoneLeft self.old.queue placed.now) }
        ensures from { Keeps self.new.queue self.old.queue }
        ensures cursors { self.new.cursors ≡ self.old.cursors }
    {
        while let Some(item) = self.queue.pop() {
            if !placed[item as usize] {
                return Some(item);
            }
        }
        None
    }
}
