ghost use Rattle.std.specs.Prelude.{◌≡◌, ◌≢◌, ◌<◌, ◌≤◌, ◌%◌, ◌^◌, ◌∷◌, ◌++◌, [], true, ℕ, length, IfOk, OnOk, All};
ghost use Rattle.geom_core.specs.declared.limits.TheConstants.{MAX_TRIANGLES};
ghost use Rattle.partition.specs.Internal.Frontiers.{IsLeft, Keeps, KeepsLeft};
ghost use Rattle.partition.specs.Growing.{is_grown, is_next};
ghost use Rattle.partition.specs.Internal.Growths.{IsGrowth, IsNextLeft, IsPlacedBelow, IsReady, IsReadyBut, SomeLeft, batch_of};
ghost use Rattle.partition.specs.Internal.EdgesOfItem.{ListsEdges};
ghost use Rattle.partition.specs.Internal.SharedEdges.{IsSharedEdge, are_adjacent};

use crate::edges_of_item::EdgesOfItem;
use crate::frontiers::Frontier;
use crate::shared_edges::SharedEdges;
use geom_core::Memory;
use std::alloc::Global;

/// An order that grows, and what finds its next item.
#[derive(Drop)]
struct Growth {
    /// For each item, whether it is placed.
    placed: Vec<bool>,
    /// The placed items, in order.
    order: Vec<u32>,
    /// All items below this one are placed.
    least: u32,
    /// The candidates for the next item.
    frontier: Frontier,
}

/// The least item from `least` on that isn't placed.
fn next_of_all(least: u32, placed: &[bool]) -> u32
    requires item_limit { length placed.now < 2 ^ 32 }
    requires least { IsPlacedBelow placed.now least }
    requires left { SomeLeft placed.now }
    ensures left { IsLeft placed.now result }
    ensures least { IsPlacedBelow placed.now result }
{
    let mut item = least;
    while placed[item as usize] {
        item += 1;
    }
    item
}

impl Growth {
    /// The growth in which nothing is placed.
    fn new(alloc: Global, count: u32, shared: &SharedEdges) -> Result<Growth, Memory>
        ensures growth { IfOk result (λ growth. (size : ℕ) → IsGrowth shared.now size growth) }
        ensures ready { IfOk result (λ growth. (size : ℕ) → IsReady shared.now size growth) }
        ensures placed { IfOk result (λ growth. length growth.placed.items ≡ count) }
        ensures order { IfOk result (λ growth. growth.order.items ≡ []) }
    {
        Ok(Growth {
            placed: vec![in alloc; false; count as usize]?,
            order: Vec::with_capacity(alloc, count as usize)?,
            least: 0,
            frontier: Frontier::new(alloc, shared)?,
        })
    }

    /// Removes the next item from the frontier and returns it: the least of the frontier, else the least of all
    /// that aren't placed.
    fn next(&mut self) -> u32
        requires item_limit { length self.old.placed.items < 2 ^ 32 }
        requires queued { All (λ item. item < length self.old.placed.items)
            self.old.frontier.queue }
        requires least { IsPlacedBelow self.old.placed.items self.old.least }
        requires left { SomeLeft self.old.placed.items }
        ensures next { IsNextLeft self.old.placed.items self.old.frontier.queue result }
        ensures rest { KeepsLeft self.old.placed.items result
            self.old.frontier.queue self.new.frontier.queue }
        ensures from { Keeps self.new.frontier.queue self.old.frontier.queue }
        ensures least { IsPlacedBelow self.old.placed.items self.new.least }
        ensures placed { self.new.placed ≡ self.old.placed }
        ensures order { self.new.order ≡ self.old.order }
        ensures cursors { self.new.frontier.cursors ≡ self.old.frontier.cursors }
    {
        match self.frontier.pop(&self.placed) {
            Some(item) => item,
            None => {
                self.least = next_of_all(self.least, &self.placed);
                self.least
            }
        }
    }

    /// Places the item, and queues its neighbours unless the batch is full now.
    fn place(
        &mut self,
        shared: &SharedEdges,
        edges_of_item: &EdgesOfItem,
        item: u32,
        size: u32,
    ) -> Result<(), Memory>
        requires size_range { 0 < size }
        requires shared { All (IsSharedEdge (length self.old.placed.items)) shared.now }
        requires edges_of_item { ListsEdges shared.now (length self.old.placed.items) edges_of_item.now }
        requires growth { IsGrowth shared.now size self.old }
        requires ready { IsReadyBut shared.now size item self.old }
        requires next { is_next (length self.old.placed.items) (λ _. 0) (are_adjacent shared.now)
            self.old.order.items (batch_of size self.old.order.items) item ≡ true }
        ensures growth { OnOk result (IsGrowth shared.now size self.new) }
        ensures ready { OnOk result (IsReady shared.now size self.new) }
        ensures order { OnOk result (self.new.order.items ≡ self.old.order.items ++ item ∷ []) }
        ensures placed { OnOk result
            (length self.new.placed.items ≡ length self.old.placed.items) }
    {
        self.placed[item as usize] = true;
        self.order.push(item)?;
        self.frontier
            .push_least_of_each(shared, edges_of_item, item, &self.placed)?;
        self.end_full_batch(size);
        Ok(())
    }

    /// Empties the frontier if the batch is full: the next batch begins without neighbours.
    fn end_full_batch(&mut self, size: u32)
        requires { 0 < size }
        ensures full { length self.old.order.items % size ≡ 0 → self.new.frontier.queue ≡ [] }
        ensures room { length self.old.order.items % size ≢ 0 →
            self.new.frontier.queue ≡ self.old.frontier.queue }
        ensures cursors { self.new.frontier.cursors ≡ self.old.frontier.cursors }
        ensures placed { self.new.placed ≡ self.old.placed }
        ensures order { self.new.order ≡ self.old.order }
        ensures least { self.new.least ≡ self.old.least }
    {
        if self.order.len() % size as usize == 0 {
            self.frontier.queue.clear();
        }
    }
}

/// Returns the numbers below `count` in the order in which they grow in batches of `size`: a number's rank is
/// the number itself, and two numbers are neighbours if some shared edge has both.
///
/// Takes time proportional to the summed lengths of the shared edges times a logarithm.
pub(crate) fn grown_order(
    alloc: Global,
    count: u32,
    shared: &SharedEdges,
    size: u32,
) -> Result<Vec<u32>, Memory>
    requires size_range { 0 < size }
    requires item_limit { count ≤ MAX_TRIANGLES }
    requires sound { All (IsSharedEdge count) shared.now }
    ensures { IfOk result (λ order.
        is_grown count (λ _. 0) (are_adjacent shared.now) size order.items ≡ true) }
{
    let edges_of_item = EdgesOfItem::of(alloc, count, shared)?;
    let mut growth = Growth::new(alloc, count, shared)?;
    'places: for _ in 0..count {
        let item = growth.next();
        growth.place(shared, &edges_of_item, item, size)?;
    }
    let Growth { order, .. } = growth;
    Ok(order)
}
