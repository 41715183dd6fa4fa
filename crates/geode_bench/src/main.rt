//! A yardstick, and no part of the product: it does one piece of work on a mesh and prints counts.
//!
//! `geode_bench WORK [SCALE]` reads OBJ text on standard input at SCALE grid steps to a unit, or at 1,024. WORK is
//! `read`, which only makes the list of triangles; `sort`, which sorts the list's directed edges by std's sort;
//! `edges`, which makes the table of edges; `rims`, which makes the rim of the whole list; `joined-rims`, which makes
//! the rims of pieces of 128 triangles and joins them by eights; `clusters`, which cuts the triangles into clusters;
//! `groups`, which cuts these into groups; `simplify`, which then simplifies each group once, with the points of its
//! rim locked, and prints the triangles that are left and the sum of how far each group moved; or `levels`, which
//! builds all levels of detail, and prints the groups, clusters, triangles, triangles in terminal groups and greatest
//! error of their DAG. Scripts time it from outside: a piece's time is its run less that of `read`, and that of
//! `simplify` its run less that of `groups`. What it prints depends on the mesh alone.
//!
//! `geode_bench heads N` reads nothing. It checks the heads of a DAG of N groups of one cluster each, a thousand groups
//! to a page, in which each group but the first is made into the one before, and prints the time that the check took.
//!
//! `geode_bench cuts N` makes a thousand needs, cuts and uppers on such heads with eight clusters a group and a page a
//! group, and `geode_bench need N` one need with one cluster a group and ten groups a page; both print their times.
//!
//! `geode_bench pages N [SIZE]` reads nothing. It makes a DAG of N pages of leaves of SIZE triangles, or of 126,
//! thirteen of which fill a page. It makes the index of the pages, encodes, decodes and digests each page, and prints
//! the processor time of each of the four.
#![tactic(auto)]

ghost use Rattle.std.specs.Prelude.{IfSome};
ghost use Rattle.geom_core.specs.Limits.{AreGridTriangles, IsScale};

mod cuts;
mod first_level;
mod flat_dag;
mod heads;
mod levels;
mod pages;
mod rims;
mod simplified_groups;
mod works;

use cuts::{time_cuts, time_need};
use first_level::cut_level;
use geom_core::limits::{MAX_STEPS_PER_UNIT, STEPS_PER_UNIT};
use geom_core::{Memory, Tri};
use heads::time_check;
use levels::{Counts, count_levels};
use obj_source::read_obj;
use pages::{layout_of, time_pages};
use rims::count_joined_rims;
use simplified_groups::{Left, simplify_groups};
use span_io::StdSource;
use std::env;
use std::process::ExitCode;
use works::{Order, Work, count_clusters, count_edges, count_rim, sort_edges};

fn main(rt: HostRuntime) -> ExitCode {
    if let Some(groups) = group_count(&rt, "heads") {
        return time_check(&rt, groups);
    }
    if let Some(layout) = layout_of(&rt) {
        return time_pages(&rt, layout);
    }
    if let Some(groups) = group_count(&rt, "cuts") {
        return time_cuts(&rt, groups);
    }
    if let Some(groups) = group_count(&rt, "need") {
        return time_need(&rt, groups);
    }
    let Some(order) = order_of(&rt) else {
        let _ = eprintln!(rt;
            "geode_bench: one of read, sort, edges, rims, joined-rims, clusters, groups, simplify, levels, each with a \
             scale or none, or heads N, cuts N, need N, or pages N"
        );
        return ExitCode::from(2);
    };
    let mut input = StdSource::of(rt.stdin());
    let Ok(tris) = read_obj(rt.alloc(), &mut input, order.scale) else {
        let _ = eprintln!(rt; "geode_bench: no mesh");
        return ExitCode::FAILURE;
    };
    match run(&rt, order.work, tris) {
        Ok(()) => ExitCode::SUCCESS,
        Err(Memory) => ExitCode::FAILURE,
    }
}

/// The number of groups, if the command line is this work and a number.
fn group_count(rt: &HostRuntime, work: &str) -> Option<u32> {
    let mut words = env::args(rt).ok()?.skip(1);
    let is_work = words.next()?.as_str() == work;
    let groups = words.next()?.parse::<u32>().ok()?;
    if is_work { Some(groups) } else { None }
}

/// What the command line asks for.
fn order_of(rt: &HostRuntime) -> Option<Order>
    ensures scale_range { IfSome result (λ order. IsScale order.scale) }
{
    let mut words = env::args(rt).ok()?.skip(1);
    let work = Work::named(&words.next()?)?;
    let scale = match words.next() {
        None => STEPS_PER_UNIT,
        Some(word) => word.parse::<u32>().ok()?,
    };
    if words.next().is_some() || scale < 1 || scale > MAX_STEPS_PER_UNIT {
        return None;
    }
    Some(Order { work, scale })
}

/// Does the work, and prints its counts.
fn run(rt: &HostRuntime, work: Work, tris: Vec<Tri>) -> Result<(), Memory>
    requires mesh { AreGridTriangles tris.items }
{
    let count = tris.len();
    let _ = println!(rt; "triangles {count}");
    match work {
        Work::Read => {}
        Work::Sort => {
            let sorted = sort_edges(rt.alloc(), &tris)?;
            let _ = println!(rt; "edges {sorted}");
        }
        Work::Edges => {
            let (edges, sum) = count_edges(rt.alloc(), &tris)?;
            let _ = println!(rt; "rim {edges} sum {sum}");
        }
        Work::Rims => {
            let (edges, sum) = count_rim(rt.alloc(), &tris)?;
            let _ = println!(rt; "rim {edges} sum {sum}");
        }
        Work::JoinedRims => {
            let edges = count_joined_rims(rt.alloc(), &tris)?;
            let _ = println!(rt; "edges of joined rims {edges}");
        }
        Work::Clusters => {
            let (clusters, sum) = count_clusters(rt.alloc(), &tris)?;
            let _ = println!(rt; "clusters {clusters} sum {sum}");
        }
        Work::Groups => {
            let groups = cut_level(rt.alloc(), &tris)?.groups.len();
            let _ = println!(rt; "groups {groups}");
        }
        Work::Simplify => print_left(rt, simplify_groups(rt.alloc(), &tris)?),
        Work::Levels => print_counts(rt, count_levels(rt.alloc(), tris)?),
    }
    Ok(())
}

/// Prints what a simplification left.
fn print_left(rt: &HostRuntime, left: Left) {
    let (count, moved) = (left.tris, left.moved);
    let _ = println!(rt; "left {count} moved {moved}");
}

/// Prints the counts of a DAG.
fn print_counts(rt: &HostRuntime, counts: Counts) {
    let (groups, clusters, triangles) = (counts.groups, counts.clusters, counts.triangles);
    let (terminal, error) = (counts.terminal, counts.error);
    let _ = println!(rt;
        "groups {groups} clusters {clusters} triangles {triangles} terminal {terminal} error {error}"
    );
}
