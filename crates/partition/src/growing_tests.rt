ghost use Rattle.std.specs.Prelude.{All, IfOk, IfSome, IsTrue};
ghost use Rattle.partition.specs.Internal.SharedEdges.{IsSharedEdge};

use crate::growing::grown_order;
use crate::shared_edges::SharedEdges;
use geom_core::Memory;
use std::alloc::Global;
use std::test::Fail;

/// Whether the items ascend, each below the limit.
fn is_shared_edge(items: &[u32], limit: usize) -> bool
    ensures { IsTrue result → IsSharedEdge limit items.now }
{
    let mut low = 0;
    for item in items {
        if *item < low || *item as usize >= limit {
            return false;
        }
        low = *item;
    }
    true
}

/// Whether each shared edge ascends, with items below the count.
fn are_shared_edges(shared: &SharedEdges, count: u32) -> bool
    ensures { IsTrue result → All (IsSharedEdge count) shared.now }
{
    for edge in 0..shared.len() {
        if !is_shared_edge(shared.items_on(edge), count as usize) {
            return false;
        }
    }
    true
}

/// The shared edges whose items follow one another in `items`, if they ascend and are below the count.
fn shared_edges_of(
    alloc: Global,
    items: &[u32],
    starts: &[u32],
    count: u32,
) -> Result<Option<SharedEdges>, Memory>
    ensures { IfOk result (λ shared. IfSome shared (λ shared. All (IsSharedEdge count) shared)) }
{
    if !is_shared_edge(starts, items.len() + 1) {
        return Ok(None);
    }
    let starts: Vec<usize> = starts.iter().map(|start| *start as usize).collect(alloc)?;
    let shared = SharedEdges::of(Vec::from_slice(alloc, items)?, starts);
    if !are_shared_edges(&shared, count) {
        return Ok(None);
    }
    Ok(Some(shared))
}

/// The case, the number of items, the items of the shared edges, where each edge begins and the last one ends,
/// the size of a batch, and the order.
type Row<'a> = (&'a str, u32, &'a [u32], &'a [u32], u32, &'a [u32]);

#[test]
fn orders_grow_by_the_rule(rt: HostRuntime) -> Result<(), Fail> {
    let rows: [Row; 14] = [
        ("no run: by number", 5, &[], &[0], 2, &[0, 1, 2, 3, 4]),
        (
            "strip of three squares",
            6,
            &[0, 1, 0, 3, 2, 3, 2, 5, 4, 5],
            &[0, 2, 4, 6, 8, 10],
            128,
            &[0, 1, 3, 2, 5, 4],
        ),
        (
            "the same by four",
            6,
            &[0, 1, 0, 3, 2, 3, 2, 5, 4, 5],
            &[0, 2, 4, 6, 8, 10],
            4,
            &[0, 1, 3, 2, 4, 5],
        ),
        (
            "fan round a point",
            6,
            &[0, 2, 2, 4, 1, 4, 1, 5, 3, 5, 0, 3],
            &[0, 2, 4, 6, 8, 10, 12],
            3,
            &[0, 2, 3, 1, 4, 5],
        ),
        (
            "all in one run",
            7,
            &[0, 1, 2, 3, 4, 5, 6],
            &[0, 7],
            3,
            &[0, 1, 2, 3, 4, 5, 6],
        ),
        (
            "one item in every run",
            6,
            &[0, 5, 1, 5, 2, 5, 3, 5, 4, 5],
            &[0, 2, 4, 6, 8, 10],
            4,
            &[0, 5, 1, 2, 3, 4],
        ),
        (
            "one item in every run, by seven",
            6,
            &[0, 5, 1, 5, 2, 5, 3, 5, 4, 5],
            &[0, 2, 4, 6, 8, 10],
            7,
            &[0, 5, 1, 2, 3, 4],
        ),
        (
            "two parts, one after the other",
            6,
            &[0, 2, 2, 4, 1, 3, 3, 5],
            &[0, 2, 4, 6, 8],
            6,
            &[0, 2, 4, 1, 3, 5],
        ),
        (
            "two parts, in batches of two",
            6,
            &[0, 2, 2, 4, 1, 3, 3, 5],
            &[0, 2, 4, 6, 8],
            2,
            &[0, 2, 1, 3, 4, 5],
        ),
        (
            "a neighbour of the batch before",
            5,
            &[0, 1, 0, 3, 3, 4],
            &[0, 2, 4, 6],
            2,
            &[0, 1, 2, 3, 4],
        ),
        (
            "a run twice, and an empty one",
            4,
            &[0, 3, 0, 3],
            &[0, 2, 2, 4],
            4,
            &[0, 3, 1, 2],
        ),
        (
            "batches of one",
            4,
            &[0, 3, 1, 2],
            &[0, 2, 4],
            1,
            &[0, 1, 2, 3],
        ),
        (
            "three to a run",
            9,
            &[0, 4, 8, 1, 4, 7, 2, 4, 6],
            &[0, 3, 6, 9],
            5,
            &[0, 4, 1, 2, 6, 3, 5, 7, 8],
        ),
        ("no item", 0, &[], &[0], 4, &[]),
    ];
    for (name, count, items, starts, size, want) in rows {
        assert!(rt; count <= 100 && size > 0, "{name}");
        let Some(shared) = shared_edges_of(rt.alloc(), items, starts, count)? else {
            panic!(rt; "{name}: no runs");
        };
        let order = grown_order(rt.alloc(), count, &shared, size)?;
        assert_eq!(rt; order.as_slice(), want, "{name}");
    }
    Ok(())
}

#[test]
fn an_order_or_want_of_memory(rt: HostRuntime) -> Result<(), Fail> {
    let (items, starts) = ([0, 1, 0, 3, 2, 3], [0, 2, 4, 6]);
    let Ok(Some(shared)) = shared_edges_of(rt.alloc(), &items, &starts, 4) else {
        return Ok(());
    };
    match grown_order(rt.alloc(), 4, &shared, 3) {
        Ok(order) => assert_eq!(rt; order.as_slice(), [0, 1, 3, 2].as_slice()),
        Err(Memory) => (),
    }
    Ok(())
}
