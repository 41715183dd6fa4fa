ghost use Rattle.std.specs.Prelude.{IfOk, IsTrue, All, List};
ghost use Rattle.geom_core.specs.declared.triangles.Tagged.{Tagged};
ghost use Rattle.dag_core.specs.TriangleRules.{IsLaidOut, IsSourcedTriangle};
ghost use Rattle.dag_core.specs.Triangles.{HasTris};

use crate::{TriangleFault, check_triangles};
use dag_core::{CheckFault, ClusterTris, Dag, Groups, Heads};
use geom_core::{Memory, Pt, Tagged, TaggedTris};
use std::alloc::Global;
use std::test::Fail;
use two_squares::two_squares;

/// Whether each cluster has as many triangles as its head states.
fn has_tris(dag: &Dag) -> bool
    ensures counts { IsTrue result → HasTris dag.now }
{
    let lists = dag.tris.as_slice();
    let clusters = dag.heads.clusters.as_slice();
    if lists.len() != clusters.len() {
        return false;
    }
    'clusters: for c in 0..lists.len() {
        if lists[c].as_slice().len() != clusters[c].tris as usize {
            return false;
        }
    }
    true
}

/// Whether these are triangles of a mesh, each with the number of a source.
fn are_sourced(sources: u32, tris: &[Tagged]) -> bool
    ensures triangles { IsTrue result → All (IsSourcedTriangle sources) tris.now }
{
    'tris: for t in tris {
        if !t.tri.is_grid_triangle() || t.source >= sources {
            return false;
        }
    }
    true
}

/// Whether the triangles of all clusters are.
fn are_all_sourced(sources: u32, lists: &[TaggedTris]) -> bool
    ensures triangles { IsTrue result → All (All (IsSourcedTriangle sources)) lists.now }
{
    'lists: for list in lists {
        if !are_sourced(sources, list.as_slice()) {
            return false;
        }
    }
    true
}

/// Whether pages can be written of the DAG.
fn is_laid_out(alloc: Global, dag: &Dag) -> Result<bool, Memory>
    ensures laid_out { IfOk result (λ is. IsTrue is → IsLaidOut dag.now) }
{
    if !dag.heads.is_in_range() {
        return Ok(false);
    }
    match dag.heads.check(alloc) {
        Ok(()) => Ok(has_tris(dag) && are_all_sourced(dag.heads.sources, dag.tris.as_slice())),
        Err(CheckFault::Rule { .. }) => Ok(false),
        Err(CheckFault::Memory) => Err(Memory),
    }
}

/// The triangle with a part changed: corner `a`, `b` or `c` is the point x, y of the plane z = 0; its source is x.
fn changed_part(t: Tagged, part: &str, x: u16, y: u16) -> Tagged {
    let mut changed = t;
    let p = Pt {
        x: i32::from(x),
        y: i32::from(y),
        z: 0,
    };
    match part {
        "a" => changed.tri.a = p,
        "b" => changed.tri.b = p,
        "c" => changed.tri.c = p,
        _ => changed.source = u32::from(x),
    }
    changed
}

/// Makes a change that a text spells if it is one of this cluster: cluster, triangle, part, x and y.
fn change(tris: &mut [Tagged], cluster: usize, text: &str) -> Option<()> {
    let mut words = text.split_whitespace();
    let place = words.next()?.parse::<usize>().ok()?;
    let k = words.next()?.parse::<usize>().ok()?;
    let part = words.next()?;
    let x = words.next()?.parse::<u16>().ok()?;
    let y = words.next()?.parse::<u16>().ok()?;
    if place == cluster && k < tris.len() {
        tris[k] = changed_part(tris[k], part, x, y);
    }
    Some(())
}

/// The groups of the two squares with these errors of groups 1 and 2.
fn groups_with(alloc: Global, heads: &Heads, error: u32, other: u32) -> Result<Groups, Memory> {
    let mut groups = heads.groups.as_slice().to_vec(alloc)?;
    if groups.len() == 3 {
        groups[1].error = error;
        groups[2].error = other;
    }
    Ok(Groups::of(groups))
}

/// The two squares with these errors of groups 1 and 2, and with these changes, by commas.
fn squares_with(alloc: Global, error: u32, other: u32, changes: &str) -> Result<Dag, Memory> {
    let dag = two_squares(alloc)?;
    let groups = groups_with(alloc, &dag.heads, error, other)?;
    let mut lists = Vec::new(alloc);
    for list in dag.tris.as_slice() {
        let mut tris = list.as_slice().to_vec(alloc)?;
        for text in changes.split(',') {
            change(&mut tris, lists.len(), text);
        }
        lists.push(TaggedTris::of(tris))?;
    }
    let Dag { heads, .. } = dag;
    Ok(Dag {
        heads: Heads { groups, ..heads },
        tris: ClusterTris::of(lists),
    })
}

/// The rule that is broken and where; 0 and 0 if none is, 9 and 9 if the DAG can't be laid out.
fn broken(alloc: Global, dag: &Dag) -> Result<(u8, u32), Memory> {
    if !is_laid_out(alloc, dag)? {
        return Ok((9, 9));
    }
    match check_triangles(alloc, dag) {
        Ok(()) => Ok((0, 0)),
        Err(TriangleFault::Broken(found)) => Ok((found.rule, found.index)),
        Err(TriangleFault::Memory) => Err(Memory),
    }
}

#[test]
fn the_first_broken_rule_is_named(rt: HostRuntime) -> Result<(), Fail> {
    // errors of groups 1 and 2; changes; the rule and its index
    let cases = [
        (4, 4, "", (0, 0)),
        // rule 6: corner A of a coarse square moved, in square 1, in square 2, in both
        (4, 4, "0 0 c 1 0", (6, 1)),
        (4, 4, "1 0 c 17 0", (6, 2)),
        (4, 4, "1 0 c 17 0, 0 0 c 1 0", (6, 1)),
        // a fine square's corner; the middle, in one triangle and in all four
        (4, 4, "2 0 a 1 0", (6, 1)),
        (4, 4, "3 0 c 20 5", (6, 2)),
        (4, 4, "2 0 c 4 3, 2 1 c 4 3, 2 2 c 4 3, 2 3 c 4 3", (0, 0)),
        // coarse square 1 turned over: the same edges, the other way
        (8, 4, "0 0 a 8 8, 0 0 b 8 0, 0 1 a 0 8, 0 1 b 8 8", (6, 1)),
        // rule 7: source 0 is missing, and 1 is found twice; 4 is found twice, and 3 is missing; 7 and 6; 0 and 4
        (4, 4, "2 0 s 1 0", (7, 0)),
        (4, 4, "2 3 s 4 0", (7, 3)),
        (4, 4, "3 3 s 6 0", (7, 6)),
        (4, 4, "3 0 s 5 0, 2 0 s 3 0", (7, 0)),
        // triangles that a group made are no leaf triangles
        (8, 4, "0 0 s 2 0, 0 1 s 1 0", (0, 0)),
        // rule 8: A is 4 from the middle
        (3, 4, "", (8, 0)),
        (4, 3, "", (8, 1)),
        (3, 3, "", (8, 0)),
        (0, 0, "", (8, 0)),
        // the source is the triangle beside it, whose corners are 8 away
        (4, 4, "0 0 s 2 0", (8, 0)),
        (7, 4, "0 0 s 2 0", (8, 0)),
        (8, 4, "0 0 s 2 0", (0, 0)),
        // corners are compared in order: (A, B, C) for (B, C, A) has the same edges
        (4, 4, "0 0 a 0 0, 0 0 b 8 0, 0 0 c 8 8", (8, 0)),
        (8, 4, "0 0 a 0 0, 0 0 b 8 0, 0 0 c 8 8", (0, 0)),
        // rule 6 before rules 7 and 8, rule 7 before rule 8
        (3, 3, "2 0 s 1 0, 1 0 c 17 0", (6, 2)),
        (3, 3, "3 3 s 6 0", (7, 6)),
        // a triangle that is none, and a source that is none
        (4, 4, "0 0 c 8 0", (9, 9)),
        (4, 4, "0 0 s 8 0", (9, 9)),
    ];
    for (error, other, changes, want) in cases {
        let dag = squares_with(rt.alloc(), error, other, changes).map_err(|_| "memory")?;
        let found = broken(rt.alloc(), &dag).map_err(|_| "memory")?;
        assert!(rt; found == want, "{error} {other}: {changes}");
    }
    Ok(())
}
