use crate::{Next, Pool, read_journal};
use std::alloc::{AllocError, Global};
use std::test::Fail;

/// Page 0 is the root page and an upper of the pages 1 and 2, page 1 is an upper of page 3.
const TEXT: &str = "\
layout 4 1 2
upper 1 0
upper 2 0
upper 3 1
0 pin 1
0 settle 1 pages 0 missing 1 2 3
1 pin 2
1 ask 2 pages 1 3
0 take - 1 -
0 install 1 00000000000000000000000000000000000000000000000000000000000000aa
1 unpin 2
0 settle 1 pages 0 missing 2 3
0 pin 1
0 narrow 1 pages 0
0 take - 2 1
0 starve 2
0 unpin 1
";

/// What a loader may do after each of the entries, for frame 1, for frame 2 and for all frames.
const OFFERS: [&str; 13] = [
    "nothing, nothing, nothing",
    "take 1 -, nothing, take 1 -",
    "take 1 -, nothing, take 1 -",
    "take 1 -, take 1 -, take 1 -",
    "full 2, busy 1, full 2",
    "full 2, full 3, full 2",
    "full 2, full 3, full 2",
    "take 2 1, nothing, take 2 1",
    "full 2, nothing, full 2",
    "take 2 1, nothing, take 2 1",
    "busy 2, nothing, nothing",
    "nothing, nothing, nothing",
    "nothing, nothing, nothing",
];

/// Returns the text of what a loader may do.
fn offer(alloc: Global, next: Next) -> Result<String, AllocError> {
    match next {
        Next::Take {
            page,
            victim: Some(victim),
        } => format!(in alloc; "take {page} {victim}"),
        Next::Take { page, victim: None } => format!(in alloc; "take {page} -"),
        Next::Full { page } => format!(in alloc; "full {page}"),
        Next::Busy { page } => format!(in alloc; "busy {page}"),
        Next::Nothing => format!(in alloc; "nothing"),
    }
}

/// Returns the text of what a loader may do for frame 1, for frame 2 and for all frames.
fn offers(alloc: Global, pool: &Pool) -> Result<String, AllocError> {
    let first = offer(alloc, pool.next_for(Some(1)))?;
    let second = offer(alloc, pool.next_for(Some(2)))?;
    let all = offer(alloc, pool.next_for(None))?;
    format!(in alloc; "{first}, {second}, {all}")
}

#[test]
fn loaders_are_offered_what_is_wanted(rt: HostRuntime) -> Result<(), Fail> {
    let Ok(journal) = read_journal(rt.alloc(), TEXT.as_bytes()) else {
        return Err("no journal".into());
    };
    let Ok(mut pool) = Pool::begin(rt.alloc(), journal.layout) else {
        return Err("no pool".into());
    };
    for (entry, expected) in journal.entries.into_vec().into_iter().zip(OFFERS) {
        assert!(rt; pool.step(rt.alloc(), entry).is_ok(), "{expected}");
        let found = offers(rt.alloc(), &pool)?;
        assert_eq!(rt; found.as_str(), expected);
    }
    assert_eq!(rt; pool.journal().len(), OFFERS.len());
    Ok(())
}
