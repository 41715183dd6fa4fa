ghost use Rattle.dag_core.specs.Ranges.{IsInRange};
ghost use Rattle.dag_core.specs.Rules.{Checked};

use crate::heads::chain;
use dag_core::Heads;
use geom_core::{Lens, Memory, Pt};
use std::process::ExitCode;
use std::time::Instant;

/// How often each call is made.
const CALLS: u32 = 1_000;

/// Members of a group of the heads whose cuts are timed.
const MEMBERS: u32 = 8;

/// Groups on a page of the heads whose need is timed.
const GROUPS_PER_PAGE: u32 = 10;

/// A lens through which each group that has an error is coarse.
fn finest_lens() -> Lens {
    Lens {
        eye: Pt { x: 0, y: 0, z: 0 },
        focal: 1,
        tolerance: 0,
    }
}

/// Times a thousand cuts, needs and uppers, on the heads of a chain of this many groups of eight clusters, a page each.
pub fn time_cuts(rt: &HostRuntime, groups: u32) -> ExitCode {
    let Ok(heads) = chain(rt.alloc(), groups, MEMBERS, 1) else {
        return ExitCode::FAILURE;
    };
    if !heads.is_in_range() {
        return ExitCode::from(2);
    }
    match heads.check(rt.alloc()) {
        Ok(()) => time_calls(rt, &heads),
        Err(_) => ExitCode::FAILURE,
    }
}

/// Times the three calls, and prints what a thousand of each took.
fn time_calls(rt: &HostRuntime, heads: &Heads) -> ExitCode
    requires range { IsInRange heads.now }
    requires checked { Checked heads.now }
{
    let Ok(start) = Instant::now(rt) else {
        return ExitCode::FAILURE;
    };
    let Ok(pages) = repeat_need(rt, heads) else {
        return ExitCode::FAILURE;
    };
    let Ok(need) = start.elapsed(rt) else {
        return ExitCode::FAILURE;
    };
    let Ok(clusters) = repeat_cut(rt, heads) else {
        return ExitCode::FAILURE;
    };
    let Ok(cut) = start.elapsed(rt) else {
        return ExitCode::FAILURE;
    };
    let Ok(uppers) = repeat_uppers(rt, heads) else {
        return ExitCode::FAILURE;
    };
    let Ok(all) = start.elapsed(rt) else {
        return ExitCode::FAILURE;
    };
    let need = need.as_micros();
    let cut = cut.as_micros();
    let all = all.as_micros();
    let _ = println!(rt;
        "pages {pages} clusters {clusters} uppers {uppers}: at {need} us, {cut} us, {all} us"
    );
    ExitCode::SUCCESS
}

/// Returns how many pages are needed, after asking a thousand times.
fn repeat_need(rt: &HostRuntime, heads: &Heads) -> Result<usize, Memory>
    requires range { IsInRange heads.now }
    requires checked { Checked heads.now }
{
    let mut count = 0usize;
    for _call in 0..CALLS {
        count = heads.need(rt.alloc(), &finest_lens())?.as_slice().len();
    }
    Ok(count)
}

/// Returns how many clusters the cut over all needed pages has, after cutting a thousand times.
fn repeat_cut(rt: &HostRuntime, heads: &Heads) -> Result<usize, Memory>
    requires range { IsInRange heads.now }
    requires checked { Checked heads.now }
{
    let resident = heads.need(rt.alloc(), &finest_lens())?;
    let mut count = 0usize;
    for _call in 0..CALLS {
        count = heads
            .cut(rt.alloc(), &finest_lens(), &resident)?
            .as_slice()
            .len();
    }
    Ok(count)
}

/// Returns how many uppers the pages below a thousand have, those that there are.
fn repeat_uppers(rt: &HostRuntime, heads: &Heads) -> Result<usize, Memory>
    requires range { IsInRange heads.now }
    requires checked { Checked heads.now }
{
    let mut count = 0usize;
    for p in 0..CALLS {
        if p < heads.pages {
            count = count.saturating_add(heads.uppers(rt.alloc(), p)?.as_slice().len());
        }
    }
    Ok(count)
}

/// Times one need, on the heads of a chain of this many groups of one cluster, ten groups to a page.
pub fn time_need(rt: &HostRuntime, groups: u32) -> ExitCode {
    let Ok(heads) = chain(rt.alloc(), groups, 1, GROUPS_PER_PAGE) else {
        return ExitCode::FAILURE;
    };
    if !heads.is_in_range() {
        return ExitCode::from(2);
    }
    if heads.check(rt.alloc()).is_err() {
        return ExitCode::FAILURE;
    }
    let Ok(start) = Instant::now(rt) else {
        return ExitCode::FAILURE;
    };
    let Ok(need) = heads.need(rt.alloc(), &finest_lens()) else {
        return ExitCode::FAILURE;
    };
    let Ok(time) = start.elapsed(rt) else {
        return ExitCode::FAILURE;
    };
    let pages = need.as_slice().len();
    let micros = time.as_micros();
    let _ = println!(rt; "groups {groups} pages {pages} need {micros} us");
    ExitCode::SUCCESS
}
