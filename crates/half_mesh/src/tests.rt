use crate::{Edge, EdgeTable, Rim};
use geom_core::{Memory, Pt, Tri};
use std::alloc::Global;
use std::test::Fail;

const A: Pt = Pt { x: 0, y: 0, z: 0 };

const B: Pt = Pt { x: 8, y: 0, z: 0 };

const C: Pt = Pt { x: 8, y: 8, z: 0 };

const D: Pt = Pt { x: 0, y: 8, z: 0 };

const MIDDLE: Pt = Pt { x: 4, y: 4, z: 0 };

fn tri(a: Pt, b: Pt, c: Pt) -> Tri {
    Tri { a, b, c }
}

fn is_shared<T: Send + Sync>(_value: &T) -> bool {
    true
}

#[test]
fn a_square_of_four_has_a_rim_of_four(rt: HostRuntime) -> Result<(), Fail> {
    let tris = [
        tri(A, B, MIDDLE),
        tri(B, C, MIDDLE),
        tri(C, D, MIDDLE),
        tri(D, A, MIDDLE),
    ];
    let table = EdgeTable::of(rt.alloc(), &tris).map_err(|_| "memory")?;
    assert!(rt; is_shared(&table));
    let rim = [
        Edge { u: A, v: D },
        Edge { u: A, v: B },
        Edge { u: D, v: C },
        Edge { u: B, v: C },
    ];
    assert_eq!(rt; table.rim(), rim.as_slice());
    assert_eq!(rt; table.sum_of(A, B), 1);
    assert_eq!(rt; table.sum_of(A, D), -1);
    assert_eq!(rt; table.sum_of(A, MIDDLE), 0);
    assert!(rt; table.on_rim(C));
    assert!(rt; !table.on_rim(MIDDLE));
    assert_eq!(rt; table.around(MIDDLE), [0, 1, 2, 3].as_slice());
    assert_eq!(rt; table.around(A), [0, 3].as_slice());
    Ok(())
}

const ABC: Tri = Tri { a: A, b: B, c: C };

const CBA: Tri = Tri { a: C, b: B, c: A };

const DAB: Tri = Tri { a: D, b: A, c: B };

const AAB: Tri = Tri { a: A, b: A, c: B };

const BAA: Tri = Tri { a: B, b: A, c: A };

const ABA: Tri = Tri { a: A, b: B, c: A };

const AAA: Tri = Tri { a: A, b: A, c: A };

#[test]
fn small_lists(rt: HostRuntime) -> Result<(), Fail> {
    // name, triangles, edges of the rim, sum from A to B, triangles round A
    let cases: [(&str, &[Tri], usize, i32, &[u32]); 9] = [
        ("none", &[], 0, 0, &[]),
        ("one", &[ABC], 3, 1, &[0]),
        ("doubled", &[ABC, ABC], 3, 2, &[0, 1]),
        ("turned", &[ABC, CBA], 0, 0, &[0, 1]),
        ("first two equal", &[AAB], 0, 0, &[0]),
        ("last two equal", &[BAA], 0, 0, &[0]),
        ("outer two equal", &[ABA], 0, 0, &[0]),
        ("a point and one", &[AAA, ABC], 3, 1, &[0, 1]),
        ("a side one way twice", &[ABC, DAB], 5, 2, &[0, 1]),
    ];
    for (name, tris, edges, sum, around) in cases {
        let table = EdgeTable::of(rt.alloc(), tris).map_err(|_| "memory")?;
        assert_eq!(rt; table.rim().len(), edges, "{name}");
        assert_eq!(rt; table.sum_of(A, B), sum, "{name}");
        assert_eq!(rt; table.around(A), around, "{name}");
    }
    Ok(())
}

#[test]
fn memory_may_run_out(rt: HostRuntime) -> Result<(), Fail> {
    let tris = [tri(A, B, C), tri(A, C, D)];
    if let Ok(table) = EdgeTable::of(rt.alloc(), &tris) {
        assert_eq!(rt; table.rim().len(), 4);
        assert_eq!(rt; table.around(C), [0, 1].as_slice());
    }
    Ok(())
}

#[test]
fn a_square_has_the_rim_of_its_sides(rt: HostRuntime) -> Result<(), Fail> {
    let tris = [
        tri(A, B, MIDDLE),
        tri(B, C, MIDDLE),
        tri(C, D, MIDDLE),
        tri(D, A, MIDDLE),
    ];
    let rim = Rim::of(rt.alloc(), &tris).map_err(|_| "memory")?;
    let sides = [
        Edge { u: A, v: D },
        Edge { u: A, v: B },
        Edge { u: D, v: C },
        Edge { u: B, v: C },
    ];
    assert_eq!(rt; rim.edges(), sides.as_slice());
    assert_eq!(rt; rim.sums(), [-1, 1, -1, 1].as_slice());
    let points = rim.points(rt.alloc()).map_err(|_| "memory")?;
    assert_eq!(rt; points.as_slice(), [A, D, B, C].as_slice());
    Ok(())
}

/// The rim of three short lists joined, from the rim of each.
fn joined_rim(alloc: Global, first: &[Tri], second: &[Tri], third: &[Tri]) -> Result<Rim, Memory> {
    if first.len() > 4 || second.len() > 4 || third.len() > 4 {
        return Err(Memory);
    }
    let a = Rim::of(alloc, first)?;
    let b = Rim::of(alloc, second)?;
    let c = Rim::of(alloc, third)?;
    let joined = Rim::joined(alloc, &[&a, &b, &c])?;
    Ok(joined)
}

/// The point that a letter names.
fn point(letter: u8) -> Pt {
    match letter {
        b'A' => A,
        b'B' => B,
        b'C' => C,
        b'D' => D,
        _ => MIDDLE,
    }
}

/// The triangles that a text names, three letters each.
fn tris_of(alloc: Global, text: &str) -> Result<Vec<Tri>, Memory> {
    let mut tris = Vec::new(alloc);
    for corners in text.as_bytes().chunks(3) {
        if let [a, b, c] = corners {
            tris.push(tri(point(*a), point(*b), point(*c)))?;
        }
    }
    Ok(tris)
}

/// Whether the rims of three lists, joined, are the rim of a fourth.
fn joins_to(alloc: Global, parts: [&str; 3], whole: &str) -> Result<bool, Memory> {
    let first = tris_of(alloc, parts[0])?;
    let second = tris_of(alloc, parts[1])?;
    let third = tris_of(alloc, parts[2])?;
    let joined = joined_rim(alloc, &first, &second, &third)?;
    let tris = tris_of(alloc, whole)?;
    if tris.len() > 4 {
        return Err(Memory);
    }
    let rim = Rim::of(alloc, &tris)?;
    Ok(joined.has_same(&rim))
}

#[test]
fn rims_add_up(rt: HostRuntime) -> Result<(), Fail> {
    // name, three lists, a list with the rim of all
    let cases = [
        ("none", ["", "", ""], ""),
        ("one", ["", "ABC", ""], "ABC"),
        ("halves", ["ABMBCM", "", "CDMDAM"], "ABCACD"),
        ("three times", ["ABC", "ABC", "ABC"], "ABCABCABC"),
        ("only all three cancel", ["ABCABC", "CBA", "CBA"], ""),
        ("two cancel", ["CBA", "ABC", "CBA"], "CBA"),
    ];
    for (name, parts, whole) in cases {
        let joins = joins_to(rt.alloc(), parts, whole).map_err(|_| "memory")?;
        assert!(rt; joins, "{name}");
    }
    Ok(())
}

#[test]
fn rims_are_compared(rt: HostRuntime) -> Result<(), Fail> {
    // name, one list, another, whether their rims are the same
    let cases = [
        ("none", "", "", true),
        ("turned corners", "ABC", "BCA", true),
        ("two ways to fill a square", "ABCACD", "ABMBCMCDMDAM", true),
        ("other sums", "ABC", "ABCABC", false),
        ("other direction", "ABC", "CBA", false),
        ("fewer edges", "ABC", "ABCDAB", false),
    ];
    for (name, one, other, same) in cases {
        let agree = joins_to(rt.alloc(), [one, "", ""], other).map_err(|_| "memory")?;
        assert_eq!(rt; agree, same, "{name}");
    }
    Ok(())
}
