ghost use Rattle.std.specs.Prelude.{◌≡◌, ◌≤◌, IfOk, length, map};
ghost use Rattle.std.specs.List.{enumerate_from};
ghost use Rattle.geom_core.specs.declared.limits.TheConstants.{MAX_TRIANGLES};
ghost use Rattle.partition.specs.Internal.Ranking.{IsRanking};

use geom_core::Memory;
use std::alloc::Global;

/// An item by its key and its number. Items rank by key, then by number.
#[derive(Clone, Copy, Debug, PartialEq, Eq, PartialOrd, Ord)]
struct Keyed {
    /// The item's Morton key.
    key: u64,
    /// The item's position in the list of keys, from 0.
    number: u32,
}

/// The numbers of the items with these keys, the least in rank first.
pub(crate) fn ranking(alloc: Global, keys: &[u64]) -> Result<Vec<u32>, Memory>
    requires { length keys.now ≤ MAX_TRIANGLES }
    ensures { IfOk result (λ order. IsRanking keys.now order.items) }
{
    let mut items = numbered(alloc, keys)?;
    items.sort_unstable();
    numbers(alloc, &items)
}

/// Each key with its number.
fn numbered(alloc: Global, keys: &[u64]) -> Result<Vec<Keyed>, Memory>
    requires { length keys.now ≤ MAX_TRIANGLES }
    ensures { IfOk result (λ items.
        items.items ≡ map (λ p. record { key = p.1; number = p.0 }) (enumerate_from 0 keys.now)) }
{
    let mut items = Vec::with_capacity(alloc, keys.len())?;
    for (number, key) in keys.iter().enumerate() {
        items.push(Keyed {
            key: *key,
            number: number as u32,
        })?;
    }
    Ok(items)
}

/// The numbers of the items, in their order.
fn numbers(alloc: Global, items: &[Keyed]) -> Result<Vec<u32>, Memory>
    ensures { IfOk result (λ order. order.items ≡ map (λ item. item.number) items.now) }
{
    Ok(items.iter().map(|item| item.number).collect(alloc)?)
}
