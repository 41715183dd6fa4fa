ghost use Rattle.std.specs.Prelude.{IfOk};
ghost use Rattle.journal.specs.Layout.{InBounds};

use crate::{Entry, Journal, JournalFault, Pool, ReplayFault, StepFault, What, read_journal};
use std::alloc::{AllocError, Global};
use std::process::Abort;
use std::test::Fail;

/// A frame was pinned, over three pages of which page 0 is the root page.
const PINNED: &str = "\
layout 3 1 3
upper 1 0
upper 2 0
0 pin 0
";

/// The frame settled.
const SETTLED: &str = "\
layout 3 1 3
upper 1 0
upper 2 0
0 pin 0
0 settle 0 pages 0 missing 1 2
";

/// The first of its pages is resident.
const INSTALLED: &str = "\
layout 3 1 3
upper 1 0
upper 2 0
0 pin 0
0 settle 0 pages 0 missing 1 2
0 take 0 1 -
0 install 1 0000000000000000000000000000000000000000000000000000000000000007
";

/// A page that a frame asked for is resident.
const ASKED: &str = "\
layout 3 1 3
upper 1 0
upper 2 0
0 pin 0
0 ask 0 pages 1
0 take 0 1 -
0 install 1 0000000000000000000000000000000000000000000000000000000000000007
";

/// Page 2 depends on the pages 0 and 1, and a frame settled for both pages above the root page.
const SHARED: &str = "\
layout 3 1 3
upper 1 0
upper 2 0 1
0 pin 0
0 settle 0 pages 0 missing 1 2
";

/// All slots are used: page 1 is an upper of page 2, page 3 is pinned, page 4 was used before page 2.
const CROWDED: &str = "\
layout 6 1 5
upper 1 0
upper 2 0 1
upper 3 0
upper 4 0
upper 5 0
0 pin 0
0 settle 0 pages 0 missing 1 2 3 4
0 take 0 1 -
0 install 1 0000000000000000000000000000000000000000000000000000000000000007
0 take 0 2 -
0 install 2 0000000000000000000000000000000000000000000000000000000000000007
0 take 0 3 -
0 install 3 0000000000000000000000000000000000000000000000000000000000000007
0 take 0 4 -
0 install 4 0000000000000000000000000000000000000000000000000000000000000007
0 pin 0
0 narrow 0 pages 2 3
0 narrow 0 pages 3
1 pin 1
1 settle 1 pages 0 missing 5
";

/// All slots are used, and one entry used the pages 1 and 2 last.
const USED_TOGETHER: &str = "\
layout 4 1 3
upper 1 0
upper 2 0
upper 3 0
0 pin 0
0 settle 0 pages 0 missing 1 2
0 take 0 1 -
0 install 1 0000000000000000000000000000000000000000000000000000000000000007
0 take 0 2 -
0 install 2 0000000000000000000000000000000000000000000000000000000000000007
0 narrow 0 pages 1 2
0 unpin 0
1 pin 1
1 settle 1 pages 0 missing 3
";

/// All slots are used, and the one page that no frame pins is an upper of the page that is wanted.
const UPPER_OF_WANTED: &str = "\
layout 3 1 2
upper 1 0
upper 2 0 1
0 pin 0
0 settle 0 pages 0 missing 1
0 take 0 1 -
0 install 1 0000000000000000000000000000000000000000000000000000000000000007
0 narrow 0 pages 0
1 pin 1
1 settle 1 pages 0 missing 2
";

/// All slots are used, and the one page that no frame pins is an upper of the page that is being loaded.
const UPPER_OF_LOADING: &str = "\
layout 4 1 3
upper 1 0
upper 2 0 1
upper 3 0
0 pin 0
0 settle 0 pages 0 missing 1 2 3
0 take 0 1 -
0 install 1 0000000000000000000000000000000000000000000000000000000000000007
0 take 0 2 -
0 narrow 0 pages 0
";

/// A row: a journal, what follows, and whether the last entry of that is allowed. Each entry before it is.
type Row<'a> = (&'a str, &'a str, bool);

const LOADS: [Row; 19] = [
    (SHARED, "0 take 0 2 -", false),
    (SETTLED, "1 take 0 1 -", false),
    (SETTLED, "1 take - 1 -", true),
    (SETTLED, "0 take 0 2 -", false),
    (INSTALLED, "0 take 0 2 -", true),
    (INSTALLED, "0 take 0 2 1", false),
    (SETTLED, "0 stop\n0 take 0 1 -", false),
    (SETTLED, "0 stop\n0 stop", false),
    (SETTLED, "0 take 0 1 -\n0 stop\n0 starve 1", true),
    (SETTLED, "0 take 0 1 -\n1 starve 1", false),
    (SETTLED, "0 take 0 1 -\n0 starve 2", false),
    (SETTLED, "0 take 0 1 -\n0 fail 1 3 3", false),
    (SETTLED, "0 take 0 1 -\n0 fail 1 4 3", false),
    (SETTLED, AT_THE_MAXIMUM, true),
    (SETTLED, FROM_BEFORE_THE_LAST, false),
    (SETTLED, FROM_THE_LAST, true),
    (SETTLED, "0 take 0 1 -\n0 spoil 1 short 65535", true),
    (SETTLED, "0 take 0 1 -\n0 spoil 1 short 65536", false),
    (SETTLED, "0 take 0 1 -\n0 spoil 1 grammar 5 0", false),
];

/// A count of faults that cannot rise.
const AT_THE_MAXIMUM: &str = "\
0 take 0 1 -
0 fail 1 18446744073709551615 18446744073709551615";

/// The second Fail begins before the first one ended.
const FROM_BEFORE_THE_LAST: &str = "\
0 take 0 1 -
0 fail 1 3 5
0 take 0 2 -
0 fail 2 4 6";

/// The second Fail begins at the end of the first one.
const FROM_THE_LAST: &str = "\
0 take 0 1 -
0 fail 1 3 5
0 take 0 2 -
0 fail 2 5 6";

const VICTIMS: [Row; 12] = [
    (CROWDED, "1 take 1 5 4", true),
    (CROWDED, "1 take 1 5 2", false),
    (CROWDED, "1 take 1 5 3", false),
    (CROWDED, "1 take 1 5 1", false),
    (CROWDED, "1 take 1 5 0", false),
    (CROWDED, "1 take 1 5 -", false),
    (USED_TOGETHER, "1 take 1 3 2", true),
    (USED_TOGETHER, "1 take 1 3 1", false),
    (UPPER_OF_WANTED, "1 take 1 2 1", false),
    (UPPER_OF_WANTED, "1 full 1", true),
    (UPPER_OF_LOADING, "0 take 0 3 1", false),
    (UPPER_OF_LOADING, "0 full 0", true),
];

const FRAMES: [Row; 15] = [
    (PINNED, "0 pin 0", true),
    (PINNED, "1 pin 0", false),
    (PINNED, "1 unpin 0", false),
    (PINNED, "0 unpin 0\n0 pin 0", false),
    (PINNED, "0 unpin 0\n0 unpin 0", false),
    (PINNED, "0 settle 0 pages 0 missing 2 1", false),
    (PINNED, "0 settle 0 pages 0 missing 1 1", false),
    (PINNED, "0 settle 0 pages 0 missing 3", false),
    (PINNED, "0 settle 0 pages 0 1 missing 2", false),
    (PINNED, "0 settle 0 pages - missing 0", false),
    (PINNED, "0 ask 0 pages -", true),
    (PINNED, "0 ask 0 pages 0", false),
    (PINNED, "0 narrow 0 pages 1", false),
    (INSTALLED, "0 narrow 0 pages 1", true),
    (ASKED, "0 narrow 0 pages 1", false),
];

/// An Ask of another frame ends the want of the frame that ended.
const ASKED_SINCE: &str = "\
0 ask 0 pages 1
0 unpin 0
0 pin 2
0 ask 2 pages 2
1 take - 1 -";

const WANTS: [Row; 4] = [
    (SETTLED, "0 take 0 1 -\n0 fail 1 3 5\n0 take 0 1 -", false),
    (SETTLED, "0 take 0 1 -\n0 fail 1 3 5\n0 take 0 2 -", true),
    (PINNED, "0 ask 0 pages 1\n0 unpin 0\n1 take - 1 -", true),
    (PINNED, ASKED_SINCE, false),
];

/// Returns the texts, one after the other.
fn joined(alloc: Global, before: &str, more: &str) -> Result<Vec<u8>, AllocError> {
    let mut text = Vec::from_slice(alloc, before.as_bytes())?;
    text.extend_from_slice(more.as_bytes())?;
    Ok(text)
}

/// Returns the journal of the texts, one after the other.
fn journal_of(alloc: Global, before: &str, more: &str) -> Result<Journal, &'static str>
    ensures { IfOk result (λ journal. InBounds journal.layout) }
{
    let Ok(text) = joined(alloc, before, more) else {
        return Err("no memory");
    };
    match read_journal(alloc, &text) {
        Ok(journal) => Ok(journal),
        Err(JournalFault::Memory) => Err("no memory"),
        Err(JournalFault::Line { .. }) => Err("no journal"),
    }
}

/// Whether the last entry of the texts is allowed. An error if one before it is not.
fn is_last_allowed(alloc: Global, before: &str, more: &str) -> Result<bool, &'static str> {
    let journal = journal_of(alloc, before, more)?;
    let count = journal.entries.as_slice().len() as u64;
    match Pool::replay(alloc, journal.layout, journal.entries.into_vec()) {
        Ok(_) => Ok(true),
        Err(ReplayFault::Illegal { entry }) if entry == count - 1 => Ok(false),
        Err(ReplayFault::Illegal { .. }) => Err("one before the last isn't allowed"),
        Err(ReplayFault::Memory) => Err("no memory"),
    }
}

/// Asserts that the last entry of each row is allowed, or is not.
fn assert_rows<R: Abort>(rt: &R, alloc: Global, rows: &[Row<'_>]) {
    for (before, more, allowed) in rows {
        assert_eq!(rt;
            is_last_allowed(alloc, *before, *more),
            Ok(*allowed),
            "{before}{more}"
        );
    }
}

#[test]
fn loads_begin_and_end(rt: HostRuntime) {
    assert_rows(&rt, rt.alloc(), &LOADS);
}

#[test]
fn the_least_recently_used_page_is_evicted(rt: HostRuntime) {
    assert_rows(&rt, rt.alloc(), &VICTIMS);
}

#[test]
fn frames_have_one_owner_and_one_life(rt: HostRuntime) {
    assert_rows(&rt, rt.alloc(), &FRAMES);
}

#[test]
fn wants_come_and_go(rt: HostRuntime) {
    assert_rows(&rt, rt.alloc(), &WANTS);
}

/// Returns the pool of the journal's layout, with each of its entries entered.
fn entered(alloc: Global, journal: Journal) -> Result<Pool, StepFault>
    requires { InBounds journal.layout }
{
    let mut pool = Pool::begin(alloc, journal.layout)?;
    for entry in journal.entries.into_vec() {
        pool.step(alloc, entry)?;
    }
    Ok(pool)
}

#[test]
fn each_entry_is_entered(rt: HostRuntime) -> Result<(), Fail> {
    let Ok(journal) = journal_of(rt.alloc(), USED_TOGETHER, "") else {
        return Err("no journal".into());
    };
    let Ok(mut pool) = entered(rt.alloc(), journal) else {
        return Err("no pool".into());
    };
    let foreign = Entry {
        by: 0,
        what: What::Unpin { frame: 1 },
    };
    assert!(rt; !pool.allows(&foreign));
    assert_eq!(rt; pool.step(rt.alloc(), foreign), Err(StepFault::Illegal));
    assert_eq!(rt; pool.layout().slots, 3);
    assert!(rt; pool.is_resident(1));
    assert!(rt; !pool.is_resident(3));
    let residency = pool.residency(rt.alloc())?;
    assert_eq!(rt; residency.as_slice(), [0, 1, 2].as_slice());
    if 3 < pool.layout().pages {
        assert_eq!(rt; pool.victim(3), Some(2));
    }
    assert_eq!(rt; pool.into_journal().len(), 10);
    Ok(())
}

#[test]
fn room_is_made_and_used(rt: HostRuntime) -> Result<(), Fail> {
    let Ok(journal) = journal_of(rt.alloc(), PINNED, "") else {
        return Err("no journal".into());
    };
    let Ok(mut pool) = entered(rt.alloc(), journal) else {
        return Err("no pool".into());
    };
    let Ok(()) = pool.reserve(1) else {
        return Err("no room".into());
    };
    let last = Entry {
        by: 0,
        what: What::Unpin { frame: 0 },
    };
    if pool.allows(&last) {
        pool.step_kept(last);
    }
    assert_eq!(rt; pool.journal().len(), 2);
    assert!(rt; !pool.is_stopped());
    Ok(())
}

/// Whether threads may hold and share a value of this type.
fn is_shared<T: Send + Sync>() -> bool {
    true
}

#[test]
fn threads_hold_pools(rt: HostRuntime) {
    assert!(rt; is_shared::<Pool>());
}
