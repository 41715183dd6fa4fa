use crate::{two_squares, two_squares_heads};
use dag_core::{CheckFault, ClusterHead, ClusterHeads, Counts, Group, Groups, Heads};
use geom_core::{Cube, Lens, Memory, Nums, Pt};
use std::alloc::Global;
use std::test::Fail;

fn is_shared<T: Send + Sync>(_value: &T) -> bool {
    true
}

/// The point of the plane z = 0.
fn point(x: i32, y: i32) -> Pt {
    Pt { x, y, z: 0 }
}

/// The group that a text spells: its error, `t` or `-`, its box's least and greatest x, its page, its first member
/// and its number of members. The box's y is 0 to 8.
fn group_of(text: &str) -> Option<Group> {
    let mut words = text.split_whitespace();
    let error = words.next()?.parse::<u32>().ok()?;
    let terminal = words.next()? == "t";
    let low = words.next()?.parse::<i32>().ok()?;
    let high = words.next()?.parse::<i32>().ok()?;
    let page = words.next()?.parse::<u32>().ok()?;
    let first = words.next()?.parse::<u32>().ok()?;
    let count = words.next()?.parse::<u32>().ok()?;
    let cube = Cube {
        lo: point(low, 0),
        hi: point(high, 8),
    };
    Some(Group {
        error,
        terminal,
        cube,
        page,
        first,
        count,
    })
}

/// The cluster that a text spells: its maker or `-`, and its number of triangles.
fn cluster_of(text: &str) -> Option<ClusterHead> {
    let mut words = text.split_whitespace();
    let made = words.next()?.parse::<u32>().ok();
    let tris = words.next()?.parse::<u32>().ok()?;
    Some(ClusterHead { made, tris })
}

/// The groups of a text, by commas; those that are none are left out.
fn groups_of(alloc: Global, text: &str) -> Result<Groups, Memory> {
    let mut groups = Vec::new(alloc);
    for part in text.split(',') {
        if let Some(group) = group_of(part) {
            groups.push(group)?;
        }
    }
    Ok(Groups::of(groups))
}

/// The clusters of a text, by commas; those that are none are left out.
fn clusters_of(alloc: Global, text: &str) -> Result<ClusterHeads, Memory> {
    let mut clusters = Vec::new(alloc);
    for part in text.split(',') {
        if let Some(cluster) = cluster_of(part) {
            clusters.push(cluster)?;
        }
    }
    Ok(ClusterHeads::of(clusters))
}

/// The rule that is broken and where; 0 and 0 if none is, 9 and 9 if the numbers don't keep their ranges.
fn broken(alloc: Global, heads: &Heads) -> Result<(u8, u32), Memory> {
    if !heads.is_in_range() {
        return Ok((9, 9));
    }
    match heads.check(alloc) {
        Ok(()) => Ok((0, 0)),
        Err(CheckFault::Rule { number, index }) => Ok((number, index)),
        Err(CheckFault::Memory) => Err(Memory),
    }
}

const TWO: &str = "0 t 0 24 0 0 2, 4 - 0 8 1 2 1, 4 - 16 24 2 3 1";

const MADE: &str = "1 2, 2 2, - 4, - 4";

#[test]
fn the_first_broken_rule_is_named(rt: HostRuntime) -> Result<(), Fail> {
    // pages and root pages, groups, clusters; the rule and its index
    let cases = [
        (3, 1, TWO, MADE, (0, 0)),
        // rule 1: the first of group 0, 1, 2; all counts together
        (
            3,
            1,
            "0 t 0 24 0 1 2, 4 - 0 8 1 2 1, 4 - 16 24 2 3 1",
            MADE,
            (1, 0),
        ),
        (
            3,
            1,
            "0 t 0 24 0 0 2, 4 - 0 8 1 1 1, 4 - 16 24 2 3 1",
            MADE,
            (1, 1),
        ),
        (
            3,
            1,
            "0 t 0 24 0 0 2, 4 - 0 8 1 2 2, 4 - 16 24 2 3 1",
            MADE,
            (1, 2),
        ),
        (
            3,
            1,
            "0 t 0 24 0 0 2, 4 - 0 8 1 2 1, 4 - 16 24 2 3 2",
            MADE,
            (1, 3),
        ),
        (
            3,
            1,
            "0 t 0 24 0 0 2, 4 - 0 8 1 2 1",
            "1 2, - 2, - 4, - 4",
            (1, 2),
        ),
        // rule 2: a maker that is the home, one before it, two of them
        (3, 1, TWO, "0 2, 2 2, - 4, - 4", (2, 0)),
        (3, 1, TWO, "1 2, 2 2, 0 4, - 4", (2, 2)),
        (3, 1, TWO, "1 2, 0 2, 1 4, - 4", (2, 1)),
        // rule 3: a terminal group that made a cluster, one that isn't and made none
        (
            3,
            1,
            "0 t 0 24 0 0 2, 4 t 0 8 1 2 1, 4 - 16 24 2 3 1",
            MADE,
            (3, 1),
        ),
        (3, 1, TWO, "1 2, 1 2, - 4, - 4", (3, 2)),
        // rule 4: the maker's box, low and high; its error under a group that isn't terminal
        (
            3,
            1,
            "0 t 0 24 0 0 2, 4 - 0 25 1 2 1, 4 - 16 24 2 3 1",
            MADE,
            (4, 0),
        ),
        (
            3,
            1,
            "0 t 0 24 0 0 2, 4 - -1 8 1 2 1, 4 - 16 24 2 3 1",
            MADE,
            (4, 0),
        ),
        (
            3,
            1,
            "0 t 0 8 0 0 1, 4 - 0 8 1 1 1, 5 - 0 8 2 2 1",
            "1 1, 2 1, - 4",
            (4, 1),
        ),
        (
            3,
            1,
            "0 t 0 8 0 0 1, 4 - 0 8 1 1 1, 4 - 0 8 2 2 1",
            "1 1, 2 1, - 4",
            (0, 0),
        ),
        (2, 1, "5 t 0 8 0 0 1, 7 - 0 8 1 1 1", "1 1, - 4", (0, 0)),
        // rule 4 comes before rule 5
        (
            3,
            1,
            "0 t 0 24 0 0 2, 4 - 0 25 0 2 1, 4 - 16 24 2 3 1",
            MADE,
            (4, 0),
        ),
        // rule 5: a page without a triangle, a terminal group that isn't on a root page
        (
            3,
            1,
            "0 t 0 24 0 0 2, 4 - 0 8 0 2 1, 4 - 16 24 2 3 1",
            MADE,
            (5, 1),
        ),
        (2, 1, "0 t 0 8 0 0 1, 0 t 0 8 1 1 1", "- 1, - 1", (5, 1)),
        (2, 2, "0 t 0 8 0 0 1, 0 t 0 8 1 1 1", "- 1, - 1", (0, 0)),
        (3, 2, TWO, MADE, (0, 0)),
        // rule 5: an upper one page above, two pages above
        (2, 2, "0 t 0 8 1 0 1, 4 - 0 8 0 1 1", "1 2, - 4", (5, 0)),
        (
            3,
            3,
            "0 t 0 8 2 0 1, 0 t 0 8 1 1 1, 4 - 0 8 0 2 1",
            "2 2, - 1, - 4",
            (5, 0),
        ),
        // ranges
        (3, 4, TWO, MADE, (9, 9)),
        (3, 1, TWO, "3 2, 2 2, - 4, - 4", (9, 9)),
        (3, 1, TWO, "1 2, 2 2, - 129, - 4", (9, 9)),
    ];
    for (pages, roots, groups, clusters, want) in cases {
        let heads = Heads {
            groups: groups_of(rt.alloc(), groups).map_err(|_| "memory")?,
            clusters: clusters_of(rt.alloc(), clusters).map_err(|_| "memory")?,
            pages,
            roots,
            sources: 8,
        };
        let told = broken(rt.alloc(), &heads).map_err(|_| "memory")?;
        assert!(rt; told == want, "{groups}; {clusters}");
    }
    Ok(())
}

/// One page with two terminal groups: twelve clusters of 128 triangles, and one of this many.
fn full_page(alloc: Global, last: u32) -> Result<Heads, Memory> {
    let mut clusters = Vec::new(alloc);
    for _cluster in 0..12 {
        clusters.push(ClusterHead {
            made: None,
            tris: 128,
        })?;
    }
    clusters.push(ClusterHead {
        made: None,
        tris: last,
    })?;
    Ok(Heads {
        groups: groups_of(alloc, "0 t 0 8 0 0 8, 0 t 0 8 0 8 5")?,
        clusters: ClusterHeads::of(clusters),
        pages: 1,
        roots: 1,
        sources: 1,
    })
}

#[test]
fn a_page_has_at_most_1638_triangles(rt: HostRuntime) -> Result<(), Fail> {
    let full = full_page(rt.alloc(), 102).map_err(|_| "memory")?;
    let more = full_page(rt.alloc(), 103).map_err(|_| "memory")?;
    let told = broken(rt.alloc(), &full).map_err(|_| "memory")?;
    assert!(rt; told == (0, 0));
    let told = broken(rt.alloc(), &more).map_err(|_| "memory")?;
    assert!(rt; told == (5, 0));
    Ok(())
}

#[test]
fn the_two_squares_are_checked(rt: HostRuntime) -> Result<(), Fail> {
    let dag = two_squares(rt.alloc()).map_err(|_| "memory")?;
    let heads = two_squares_heads(rt.alloc()).map_err(|_| "memory")?;
    assert!(rt; is_shared(&dag));
    assert!(rt; dag.heads == heads);
    assert!(rt; dag.tris.as_slice().len() == 4);
    let counts = Counts {
        groups: 3,
        clusters: 4,
        pages: 3,
        roots: 1,
        sources: 8,
    };
    assert!(rt; heads.counts() == counts);
    if !heads.is_in_range() {
        return Err("range".into());
    }
    match heads.check(rt.alloc()) {
        Ok(()) => {
            let homes = [heads.home(0), heads.home(1), heads.home(2), heads.home(3)];
            assert!(rt; homes == [0, 0, 1, 2]);
        }
        Err(_) => return Err("refused".into()),
    }
    Ok(())
}

/// A lens whose eye is the middle of square 1.
fn lens_of(focal: u32, tolerance: u32) -> Lens {
    Lens {
        eye: point(4, 4),
        focal,
        tolerance,
    }
}

/// The numbers, each with a space before it.
fn text_of(alloc: Global, numbers: &Nums) -> Result<String, Memory> {
    let mut text = String::new(alloc);
    for number in numbers.as_slice() {
        text.push_str(&format!(in alloc; " {number}")?)?;
    }
    Ok(text)
}

#[test]
fn cuts_follow_the_lens_and_the_pages(rt: HostRuntime) -> Result<(), Fail> {
    let heads = two_squares_heads(rt.alloc()).map_err(|_| "memory")?;
    // focal length and tolerance; what is needed; the cut with these pages resident
    let cases = [
        (1, 0, " 0 1 2", " 2 3"),
        (1, 5, " 0 1 2", " 2 3"),
        (1, 6, " 0 1", " 1 2"),
        (1, 63, " 0 1", " 1 2"),
        (1, 64, " 0", " 0 1"),
        (1, 65_535, " 0", " 0 1"),
        (4_096, 65_535, " 0 1", " 1 2"),
    ];
    for (focal, tolerance, need, cut) in cases {
        let lens = lens_of(focal, tolerance);
        let needed = heads.need(rt.alloc(), &lens).map_err(|_| "memory")?;
        let told = text_of(rt.alloc(), &needed).map_err(|_| "memory")?;
        assert_eq!(rt; told.as_str(), need);
        let drawn = heads.cut(rt.alloc(), &lens, &needed).map_err(|_| "memory")?;
        let told = text_of(rt.alloc(), &drawn).map_err(|_| "memory")?;
        assert_eq!(rt; told.as_str(), cut);
    }
    Ok(())
}
