ghost use Rattle.std.specs.Prelude.{◌≡◌, ◌+◌, ◌*◌, ◌≤◌, ◌<◌, ◌^◌, IfOk, All, length, map, slice_index};
ghost use Rattle.geom_core.specs.declared.limits.TheConstants.{MAX_TRIANGLES, TRIANGLES_PER_CLUSTER};
ghost use Rattle.partition.specs.Growing.{batches_of};
ghost use Rattle.std.specs.Fork.{slice_chunk};
ghost use Rattle.partition.specs.Internal.EdgeUses.{IsUseBelow};
ghost use Rattle.partition.specs.Internal.RankBatches.{AreBatchesOfRanks};

use crate::edge_uses::{EdgeUse, shared_edges_of_uses};
use crate::growing::grown_order;
use geom_core::{Memory, Nums};
use std::alloc::Global;

/// Returns the batches of the items that have these edge uses, each as a list of numbers: the item of rank r
/// has the number `order[r]`.
pub(crate) fn grow_batches(
    alloc: Global,
    order: &[u32],
    uses: Vec<EdgeUse>,
    size: u32,
) -> Result<Vec<Nums>, Memory>
    requires size_range { 0 < size }
    requires size_limit { size ≤ TRIANGLES_PER_CLUSTER }
    requires item_limit { length order.now ≤ MAX_TRIANGLES }
    requires rank_range { All (IsUseBelow (length order.now)) uses.items }
    ensures { IfOk result (λ batches. AreBatchesOfRanks order.now uses.items size batches.items) }
{
    let count = order.len() as u32;
    let shared = shared_edges_of_uses(alloc, uses, count)?;
    let ranks = grown_order(alloc, count, &shared, size)?;
    let numbers = numbers_at(alloc, order, &ranks)?;
    split_into_batches(alloc, &numbers, size as usize)
}

/// The numbers of the items of these ranks.
fn numbers_at(alloc: Global, order: &[u32], ranks: &[u32]) -> Result<Vec<u32>, Memory>
    requires { All (λ rank. rank < length order.now) ranks.now }
    ensures { IfOk result (λ numbers. numbers.items ≡ map (slice_index order.now) ranks.now) }
{
    let mut numbers = Vec::with_capacity(alloc, ranks.len())?;
    for rank in ranks {
        numbers.push(order[*rank as usize])?;
    }
    Ok(numbers)
}

/// Splits the numbers into batches of `size`; the last one may be smaller.
fn split_into_batches(alloc: Global, numbers: &[u32], size: usize) -> Result<Vec<Nums>, Memory>
    requires size_range { 0 < size }
    requires item_limit { length numbers.now + size ≤ 2 ^ 32 }
    ensures { IfOk result (λ batches. batches.items ≡ batches_of size numbers.now) }
{
    let mut batches = Vec::new(alloc);
    for number in 0..(numbers.len() + (size - 1)) / size {
        let batch = batch_at(alloc, numbers, size, number)?;
        batches.push(batch)?;
    }
    Ok(batches)
}

/// The batch of this number: `size` numbers, or all that are left.
fn batch_at(alloc: Global, numbers: &[u32], size: usize, number: usize) -> Result<Nums, Memory>
    requires { number * size < length numbers.now }
    ensures { IfOk result (λ batch. batch ≡ slice_chunk numbers.now size number) }
{
    let start = number * size;
    let end = start + size.min(numbers.len() - start);
    Ok(Nums::of(numbers[start..end].to_vec(alloc)?))
}
