ghost use Rattle.std.specs.Prelude.{◌≤◌, IfOk, All, length};
ghost use Rattle.geom_core.specs.declared.limits.TheConstants.{TRIANGLES_PER_GROUP};
ghost use Rattle.geom_core.specs.Limits.{IsGridTriangle};
ghost use Rattle.geom_core.specs.TaggedLists.{tris_of};

use crate::{Simplified, simplify};
use geom_core::limits::TRIANGLES_PER_GROUP;
use geom_core::{Memory, Pt, Tagged, Tri};
use std::alloc::Global;
use std::collections::BTreeSet;
use std::test::Fail;

/// The point that a letter names: corners and middle of a square, the quadrilateral L B E T with its dent at E round I,
/// or, in small letters, three rows of three points each from the lowest y.
fn point(letter: u8) -> Pt {
    let (x, y, z) = match letter {
        b'B' => (8, 0, 0),
        b'C' => (8, 8, 0),
        b'D' => (0, 8, 0),
        b'M' => (4, 4, 0),
        b'L' => (-2, 0, 0),
        b'E' => (4, 6, 0),
        b'T' => (-2, 40, 0),
        b'I' => (4, 1, 0),
        b'b' => (4, 1, 2),
        b'c' => (8, 0, 0),
        b'd' => (1, 4, 0),
        b'e' => (4, 4, 0),
        b'f' => (9, 4, 0),
        b'g' => (-1, 9, 1),
        b'h' => (4, 8, 1),
        b'i' => (8, 9, 0),
        _ => (0, 0, 0),
    };
    Pt { x, y, z }
}

/// The triangle that four characters name: its source, by its code, and its corners.
fn tagged(name: &[u8]) -> Option<Tagged> {
    match name {
        [source, a, b, c] => {
            let (a, b, c) = (point(*a), point(*b), point(*c));
            Some(Tagged {
                tri: Tri { a, b, c },
                source: u32::from(*source),
            })
        }
        _ => None,
    }
}

/// The triangles that a text names.
fn triangles(alloc: Global, text: &str) -> Result<Vec<Tagged>, Memory>
    ensures range { IfOk result (λ tris. All IsGridTriangle (tris_of tris.items)) }
{
    let mut tris = Vec::new(alloc);
    for name in text.as_bytes().chunks(4) {
        let Some(listed) = tagged(name) else {
            continue;
        };
        if listed.tri.is_grid_triangle() {
            tris.push(listed)?;
        }
    }
    Ok(tris)
}

/// The points that a text names.
fn points(alloc: Global, text: &str) -> Result<BTreeSet<Pt>, Memory> {
    let mut points = BTreeSet::new(alloc);
    for letter in text.as_bytes() {
        points.insert(point(*letter))?;
    }
    Ok(points)
}

/// The simplified list of the triangles that a text names, with the points of another locked.
fn simplified(alloc: Global, text: &str, corners: &str) -> Result<Simplified, Memory> {
    let tris = triangles(alloc, text)?;
    let locked = points(alloc, corners)?;
    if tris.len() > TRIANGLES_PER_GROUP as usize {
        return Err(Memory);
    }
    simplify(alloc, tris, &locked)
}

/// Each row is named for what it is, or for the wrong rule that leaves other triangles. Expected are the answers of
/// a model that tries all collapses in each round.
#[test]
fn lists_are_simplified(rt: HostRuntime) -> Result<(), Fail> {
    let alloc = rt.alloc();
    // name, triangles, locked points, triangles that are left, how far they moved
    let cases = [
        ("no triangle", "", "A", "", 0),
        (
            "one triangle: corners of those left out count as moved",
            "7ABD",
            "",
            "",
            0,
        ),
        (
            "one triangle, all locked: locked points move",
            "7ABD",
            "ABD",
            "7ABD",
            0,
        ),
        (
            "a square: the greatest of four equal targets, or a normal of another turn",
            "0ABM1BCM2CDM3DAM",
            "ABCD",
            "1BCA2CDA",
            4,
        ),
        (
            "a square, all locked",
            "0ABM1BCM2CDM3DAM",
            "ABCDM",
            "0ABM1BCM2CDM3DAM",
            0,
        ),
        (
            "a dent: no triangle that stays is asked whether it turns over",
            "0LBI1BEI2ETI3TLI",
            "LBET",
            "0LBE3TLE",
            5,
        ),
        (
            "the distance decides before the cost",
            "1abd2bed3bcf4bfe",
            "d",
            "3bcf4bfd",
            3,
        ),
        (
            "the greater of two points at equal keys",
            "1abd2bed3bcf4bfe",
            "",
            "3bcf4bfe",
            0,
        ),
        ("a collapse too many", "1abd2bed3deg4ehg", "", "3deg4ehg", 0),
        (
            "right angles turn over",
            "1abd2bed3bcf4bfe5deh6dhg7efi8eih",
            "",
            "4hfe7efi8eih",
            7,
        ),
        (
            "signed distances add up to the cost",
            "1abe2aed3bce4cfe5deh6dhg7efh8fih",
            "abcdhi",
            "1abd3bcd4chd",
            5,
        ),
        ("sorted by source", "4abe3aed2deg1ehg", "", "4abe1ehg", 0),
        (
            "the changed triangles first",
            "4cfe3bce2bed1abd",
            "",
            "4cfe3bce",
            0,
        ),
        (
            "moves of the first corner left out",
            "1abd2bed3deg4ehg",
            "abgh",
            "1abd4dhg",
            3,
        ),
        (
            "the target not asked anew",
            "1abe2aed3bcf4bfe",
            "",
            "3bcf",
            0,
        ),
        (
            "points beside not asked anew",
            "1abd2bed3bce4cfe",
            "cd",
            "4cfe",
            0,
        ),
        (
            "the target's triangles not gathered",
            "1abe2aed3bce4cfe",
            "bc",
            "3bce4cfe",
            0,
        ),
    ];
    for (name, text, corners, left, moved) in cases {
        let simplified = simplified(alloc, text, corners)?;
        let expected = triangles(alloc, left)?;
        assert_eq!(rt; simplified.tris.as_slice(), expected.as_slice(), "{name}");
        assert_eq!(rt; simplified.moved, moved, "{name}");
    }
    Ok(())
}
