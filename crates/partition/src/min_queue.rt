ghost use Rattle.std.specs.Prelude.{◌≡◌, ◌≤◌, [], ◌∷◌, OnOk, IfSome, IfNone, All};
ghost use Rattle.std.specs.List.Sorted.{IsPermutation};

use geom_core::Memory;
use std::alloc::Global;
use std::cmp::Reverse;
use std::collections::BinaryHeap;
use std::marker::Model;

/// A priority queue of numbers, the least first. A contract sees the list of the numbers, in any order.
#[derive(Drop)]
pub(crate) struct MinQueue {
    heap: BinaryHeap<Reverse<u32>>,
}

impl Model for MinQueue {
    ghost use Rattle.std.specs.Prelude.{List, ℕ, map};
    ghost use Rattle.std.specs.BinaryHeap.{IsHeap, heap_items};
    ghost use Rattle.std.specs.Ordering.{nat_cmp};

    ghost Value = { List ℕ };

    ghost view = { λ q. map (λ x. x.0) (heap_items q.heap) };

    ghost invariant = { λ q. IsHeap (λ x y. nat_cmp y.0 x.0) (heap_items q.heap) };
}

impl MinQueue {
    /// The empty queue. Takes no memory.
    pub fn new(alloc: Global) -> MinQueue
        ensures { result ≡ [] }
    {
        MinQueue {
            heap: BinaryHeap::new(alloc),
        }
    }

    /// Inserts a number.
    pub fn push(&mut self, number: u32) -> Result<(), Memory>
        ensures { OnOk result (IsPermutation (number ∷ self.old) self.new) }
    {
        self.heap.push(Reverse(number))?;
        Ok(())
    }

    /// Removes the least number and returns it.
    pub fn pop(&mut self) -> Option<u32>
        ensures taken { IfSome result (λ number. IsPermutation self.old (number ∷ self.new)) }
        ensures least { IfSome result (λ number. All (λ other. number ≤ other) self.old) }
        ensures empty { IfNone result (self.old ≡ []) }
        ensures stays { IfNone result (self.new ≡ []) }
    {
        let Reverse(number) = self.heap.pop()?;
        Some(number)
    }

    /// Removes all numbers.
    pub fn clear(&mut self)
        ensures { self.new ≡ [] }
    {
        self.heap.clear();
    }
}
