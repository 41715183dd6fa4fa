ghost use Rattle.std.specs.Prelude.{IfOk};
ghost use Rattle.dag_core.specs.TriangleRules.{IsLaidOut};

use crate::{PageWrite, lay_out, write_pages};
use dag_core::Dag;
use geom_core::Memory;
use span_io::MemorySink;
use std::alloc::Global;
use std::process::Abort;
use std::test::Fail;
use two_squares::two_squares;

/// Bytes of the file of the two squares: a header of 64 bytes, a directory of 228, and two pages.
const FILE_BYTES: usize = 131_364;

/// What writing the two squares into a sink in memory came to.
#[derive(Drop)]
struct Ended {
    result: Result<(), PageWrite>,
    bytes: Vec<u8>,
}

/// The two squares on their pages.
#[tactic(auto, using(crate::proofs::LaidRules::can_again))]
fn laid_squares(alloc: Global) -> Result<Dag, Memory>
    ensures laid_out { IfOk result IsLaidOut }
{
    lay_out(alloc, two_squares(alloc)?)
}

/// Writes the two squares into a sink with this room that takes at most `most` bytes a call; one call fails.
fn write_squares(alloc: Global, room: u32, most: u32, failing: u64) -> Result<Ended, Memory> {
    let dag = laid_squares(alloc)?;
    let failing = vec![in alloc; failing]?;
    let mut out = MemorySink::of(alloc, u64::from(room), most.max(1), failing)?;
    let result = write_pages(alloc, &dag, &mut out);
    let bytes = out.into_bytes();
    Ok(Ended { result, bytes })
}

#[test]
fn the_two_squares_have_two_pages(rt: HostRuntime) -> Result<(), Fail> {
    let dag = laid_squares(rt.alloc())?;
    let counts = dag.heads.counts();
    assert_eq!(rt; counts.pages, 2);
    assert_eq!(rt; counts.roots, 1);
    let mut pages = Vec::new(rt.alloc());
    for group in dag.heads.groups.as_slice() {
        pages.push(group.page)?;
    }
    assert!(rt; pages.as_slice() == [0, 1, 1].as_slice());
    Ok(())
}

/// Without a failure the whole file is written, and a sink without room for it stops it there.
#[test]
fn files_are_written_whole(rt: HostRuntime) -> Result<(), Fail> {
    // room, bytes a call, bytes written
    let cases = [
        (200_000, 65_536, FILE_BYTES),
        (200_000, 4_095, FILE_BYTES),
        (200_000, 1, FILE_BYTES),
        (131_364, 64, FILE_BYTES),
    ];
    for (room, most, want) in cases {
        let ended = write_squares(rt.alloc(), room, most, 0)?;
        assert!(rt; ended.result == Ok(()), "{room} {most}");
        assert_eq!(rt; ended.bytes.len(), want);
    }
    Ok(())
}

/// Each call fails in turn, at 4,096 bytes a call: 35 calls, the last of them the flush.
#[test]
fn each_failed_call_leaves_a_prefix(rt: HostRuntime) -> Result<(), Fail> {
    for failing in 1..36u64 {
        let want = match failing {
            1 => 0,
            2 => 64,
            _ => 292 + 4_096 * (failing.saturating_sub(3)),
        };
        let ended = write_squares(rt.alloc(), 200_000, 4_096, failing)?;
        assert!(rt; ended.result == Err(PageWrite::Write), "{failing}");
        assert!(rt; ended.bytes.len() as u64 == want, "{failing}");
    }
    Ok(())
}

/// One byte a call, at the seams of the header, the directory and the pages; and a sink that is full.
#[test]
fn a_prefix_ends_at_any_byte(rt: HostRuntime) -> Result<(), Fail> {
    // room, bytes a call, the failing call, bytes written
    let cases = [
        (200_000, 1, 1, 0),
        (200_000, 1, 2, 1),
        (200_000, 1, 64, 63),
        (200_000, 1, 65, 64),
        (200_000, 1, 292, 291),
        (200_000, 1, 293, 292),
        (200_000, 1, 65_829, 65_828),
        (200_000, 1, 131_364, 131_363),
        (200_000, 1, 131_365, 131_364),
        (200_000, 64, 2, 64),
        (0, 64, 0, 0),
        (100, 64, 0, 100),
        (131_363, 65_536, 0, 131_363),
    ];
    for (room, most, failing, want) in cases {
        let ended = write_squares(rt.alloc(), room, most, failing)?;
        assert!(rt;
            ended.result == Err(PageWrite::Write),
            "{room} {most} {failing}"
        );
        assert!(rt; ended.bytes.len() == want, "{room} {most} {failing}");
    }
    Ok(())
}
