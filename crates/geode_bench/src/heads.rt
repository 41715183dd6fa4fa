ghost use Rattle.std.specs.Prelude.{◌<◌};

use dag_core::{CheckFault, ClusterHead, ClusterHeads, Group, Groups, Heads};
use geom_core::{Cube, Memory, Pt};
use std::alloc::Global;
use std::process::ExitCode;
use std::time::Instant;

/// Groups on a page of the heads that are checked.
const GROUPS_PER_PAGE: u32 = 1_000;

/// Times `check` on the heads of a chain of this many groups, and prints the counts and the time.
pub fn time_check(rt: &HostRuntime, groups: u32) -> ExitCode {
    let Ok(heads) = chain(rt.alloc(), groups, 1, GROUPS_PER_PAGE) else {
        return ExitCode::FAILURE;
    };
    if !heads.is_in_range() {
        let _ = eprintln!(rt; "geode_bench: 1 to 8388608 groups");
        return ExitCode::from(2);
    }
    let pages = heads.pages;
    let Ok(start) = Instant::now(rt) else {
        return ExitCode::FAILURE;
    };
    let answer = heads.check(rt.alloc());
    let Ok(time) = start.elapsed(rt) else {
        return ExitCode::FAILURE;
    };
    let micros = time.as_micros();
    match answer {
        Ok(()) => {
            let _ = println!(rt; "groups {groups} pages {pages} check {micros} us");
            ExitCode::SUCCESS
        }
        Err(CheckFault::Rule { number, index }) => {
            let _ = eprintln!(rt; "geode_bench: rule {number} broken at {index}");
            ExitCode::FAILURE
        }
        Err(CheckFault::Memory) => ExitCode::FAILURE,
    }
}

/// Returns the heads of a chain of groups, with this many clusters in each. The clusters of each group but the last
/// were made by the next one, and the first group is terminal.
pub fn chain(
    alloc: Global,
    groups: u32,
    members: u32,
    groups_per_page: u32,
) -> Result<Heads, Memory>
    requires page_size { 0 < groups_per_page }
{
    let mut list = Vec::new(alloc);
    let mut clusters = Vec::new(alloc);
    for g in 0..groups {
        list.push(group(g, members, g / groups_per_page))?;
        for _member in 0..members {
            clusters.push(ClusterHead {
                made: if groups - g > 1 { Some(g + 1) } else { None },
                tris: 1,
            })?;
        }
    }
    Ok(Heads {
        groups: Groups::of(list),
        clusters: ClusterHeads::of(clusters),
        pages: groups / groups_per_page + u32::from(groups % groups_per_page > 0),
        roots: 1,
        sources: 1,
    })
}

/// Returns the group of this number.
fn group(g: u32, members: u32, page: u32) -> Group {
    let origin = Pt { x: 0, y: 0, z: 0 };
    Group {
        error: if g == 0 { 0 } else { 4 },
        terminal: g == 0,
        cube: Cube {
            lo: origin,
            hi: origin,
        },
        page,
        first: g.saturating_mul(members),
        count: members,
    }
}
