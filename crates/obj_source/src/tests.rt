ghost use Rattle.std.specs.Prelude.{◌≤◌};

use super::*;
use geom_core::{Pt, Tri};
use span_io::MemorySource;
use std::alloc::{AllocError, Global};
use std::test::Fail;

/// The vertices (-1, 0, 1), (1, 0, 1) and (1, 0, -1).
const THREE: &[u8] = b"v -1 0 1\nv 1 0 1\nv 1 0 -1\n";

const A: Pt = Pt {
    x: -1024,
    y: 0,
    z: 1024,
};

const B: Pt = Pt {
    x: 1024,
    y: 0,
    z: 1024,
};

const C: Pt = Pt {
    x: 1024,
    y: 0,
    z: -1024,
};

const D: Pt = Pt {
    x: -1024,
    y: 0,
    z: -1024,
};

const ABC: Tri = Tri { a: A, b: B, c: C };

const ACD: Tri = Tri { a: A, b: C, c: D };

/// A plane as Blender writes it, with the line ends of other systems.
const PLANE: &[u8] =
    b"# Blender\r\nmtllib plane.mtl\r\no Plane\r\nv -1.000000 0.000000 1.000000\r\n\
    v 1.000000 0.000000 1.000000\r\nv -1.000000 0.000000 -1.000000\r\n\
    v 1.000000 0.000000 -1.000000\r\nvn -0.0000 1.0000 -0.0000\r\nvt 0.000000 0.000000\r\n\
    vt 1.000000 0.000000\r\nvt 0.000000 1.000000\r\nvt 1.000000 1.000000\r\ns 0\r\n\
    usemtl Material\r\nf 1/1/1 2/2/1 4/3/1 3/4/1\r\n";

/// The most bytes that one read gives, from one byte to more than a piece.
const MOSTS: [u32; 4] = [1, 7, 4096, 1_000_000];

// The bytes of the parts, of which one read gives at most `most`; these reads fail.
fn source_of(
    alloc: Global,
    parts: &[&[u8]],
    most: u32,
    failing: &[u64],
) -> Result<MemorySource, AllocError>
    requires { 1 ≤ most }
{
    let mut text = Vec::new(alloc);
    for part in parts {
        text.extend_from_slice(part)?;
    }
    Ok(MemorySource::of(text, most, failing.to_vec(alloc)?))
}

// The bytes without each CR.
fn without_returns(alloc: Global, bytes: &[u8]) -> Result<Vec<u8>, AllocError> {
    bytes
        .iter()
        .copied()
        .filter(|byte| *byte != b'\r')
        .collect(alloc)
}

// The three vertices, and a face whose corners are the first one, then the others in turn, so many times each.
fn long_face(alloc: Global, pairs: u32, last: &[u8]) -> Result<Vec<u8>, AllocError> {
    let mut text = THREE.to_vec(alloc)?;
    text.extend_from_slice(b"f 1")?;
    for _ in 0..pairs {
        text.extend_from_slice(b" 2 3")?;
    }
    text.extend_from_slice(last)?;
    Ok(text)
}

#[test]
fn reads_an_export_with_either_line_end(rt: HostRuntime) -> Result<(), Fail> {
    let alloc = rt.alloc();
    for most in MOSTS {
        assert!(rt; most > 0);
        let mut src = source_of(alloc, &[PLANE], most, &[])?;
        let tris = read_obj(alloc, &mut src, 1024)?;
        assert_eq!(rt; tris.as_slice(), [ABC, ACD].as_slice(), "CR and LF, {most}");
        let unix = without_returns(alloc, PLANE)?;
        let mut src = source_of(alloc, &[unix.as_slice()], most, &[])?;
        let tris = read_obj(alloc, &mut src, 1024)?;
        assert_eq!(rt; tris.as_slice(), [ABC, ACD].as_slice(), "LF, {most}");
    }
    Ok(())
}

#[test]
fn reads_faces_in_every_form(rt: HostRuntime) -> Result<(), Fail> {
    let alloc = rt.alloc();
    let cases: [(&str, &[u8], &[Tri]); 16] = [
        ("the last line has no LF", b"f 1 2 3", &[ABC]),
        ("the last line has a CR", b"f 1 2 3\r", &[ABC]),
        ("from the last vertex backwards", b"f -3 -2 -1\n", &[ABC]),
        ("textures and normals", b"f 1/4 2//5 3/6/7\n", &[ABC]),
        ("anything behind a slash", b"f 1/x 2/\xff 3/#\n", &[ABC]),
        ("blanks in a row", b" \t f\t 1  2 \t3 \n", &[ABC]),
        ("a comment behind the last corner", b"f 1 2 3# 4\n", &[ABC]),
        ("a comment behind a blank", b"f 1 2 3 # x y z\r\n", &[ABC]),
        ("zeros in front", b"f 01 002 000000000000000003\n", &[ABC]),
        ("two faces", b"f 1 2 3\nf 1 2 3\n", &[ABC, ABC]),
        ("a polygon", b"v -1 0 -1\nf 1 2 3 4\n", &[ABC, ACD]),
        (
            "a triangle without area by its points is dropped",
            b"f 1 2 2 3\n",
            &[ABC],
        ),
        (
            "two vertices at one point",
            b"v -1 0 1\nf 4 1 2\nf 4 2 3\n",
            &[ABC],
        ),
        (
            "lines that are passed over",
            b"vx a\nff\nv\r\r\n# f 9\n\xff\xfe\n\x00\n\r\n\nf 1 2 3\nl 1 2\n",
            &[ABC],
        ),
        (
            "words behind a vertex's numbers",
            b"v -1 0 -1 x # y\nf 1 3 4\n",
            &[ACD],
        ),
        ("a vertex behind the faces", b"f 1 2 3\nv 5 5 5\n", &[ABC]),
    ];
    for (name, lines, want) in cases {
        for most in MOSTS {
            assert!(rt; most > 0);
            let mut src = source_of(alloc, &[THREE, lines], most, &[])?;
            let tris = read_obj(alloc, &mut src, 1024)?;
            assert_eq!(rt; tris.as_slice(), want, "{name}, {most}");
        }
    }
    Ok(())
}

#[test]
fn tells_the_first_fault(rt: HostRuntime) -> Result<(), Fail> {
    let alloc = rt.alloc();
    let cases: [(&str, &[u8], u32, ObjWhy); 31] = [
        ("vertex 0", b"f 1 2 0\n", 4, ObjWhy::NoSuchVertex(3)),
        ("minus 0", b"f 1 2 -0\n", 4, ObjWhy::NoSuchVertex(3)),
        (
            "past the last vertex",
            b"f 1 2 4\n",
            4,
            ObjWhy::NoSuchVertex(3),
        ),
        (
            "before the first",
            b"f 1 -4 3\n",
            4,
            ObjWhy::NoSuchVertex(2),
        ),
        (
            "a later vertex",
            b"f 4 1 2\nv 5 5 5\n",
            4,
            ObjWhy::NoSuchVertex(1),
        ),
        ("two corners", b"f 1 2\n", 4, ObjWhy::ShortFace),
        ("two corners and a CR", b"f 1 2 \r\n", 4, ObjWhy::ShortFace),
        (
            "two corners and a comment",
            b"f 1 2 #3\n",
            4,
            ObjWhy::ShortFace,
        ),
        ("two faulty corners", b"f x y\n", 4, ObjWhy::ShortFace),
        ("an f alone", b"f\r\n", 4, ObjWhy::ShortFace),
        ("no number", b"f 1 2 x\n", 4, ObjWhy::BadCorner(3)),
        ("a plus", b"f +1 2 3\n", 4, ObjWhy::BadCorner(1)),
        ("an empty number", b"f 1 /2 3\n", 4, ObjWhy::BadCorner(2)),
        (
            "19 digits",
            b"f 1 2 0000000000000000003\n",
            4,
            ObjWhy::BadCorner(3),
        ),
        (
            "a CR in the last word",
            b"f 1 2 3\r\r\n",
            4,
            ObjWhy::BadCorner(3),
        ),
        (
            "a CR before a blank",
            b"f 1 2 3\r \n",
            4,
            ObjWhy::BadCorner(3),
        ),
        ("no blank", b"f 1 2\x0b3 1 2\n", 4, ObjWhy::BadCorner(2)),
        ("the first of two", b"f 1 9 x\n", 4, ObjWhy::NoSuchVertex(2)),
        ("two numbers", b"v 1 2\n", 4, ObjWhy::BadNumber(3)),
        (
            "two numbers and a CR",
            b"v 1 2\r\n",
            4,
            ObjWhy::BadNumber(3),
        ),
        (
            "two numbers and a comment",
            b"v 1 2#3\n",
            4,
            ObjWhy::BadNumber(3),
        ),
        ("a v alone", b"v\r", 4, ObjWhy::BadNumber(1)),
        (
            "a v before a comment",
            b"v# 1 2 3\n",
            4,
            ObjWhy::BadNumber(1),
        ),
        ("no numeral", b"v 1 1e 1\n", 4, ObjWhy::BadNumber(2)),
        ("a CR in a numeral", b"v 1 2\r 3\n", 4, ObjWhy::BadNumber(2)),
        ("outside", b"v 1 2 1024.0005\n", 4, ObjWhy::OutOfRange(3)),
        (
            "outside, and no numeral",
            b"v 9999 x 1\n",
            4,
            ObjWhy::OutOfRange(1),
        ),
        ("without LF", b"f 1 2 3\nf 1 2", 5, ObjWhy::ShortFace),
        (
            "the fourth word of the last line",
            b"f 1 2 3\nf 1 2 3 z",
            5,
            ObjWhy::BadCorner(4),
        ),
        (
            "lines without words count",
            b"\n\r\n \n#\nvn\nf 1 2\n",
            9,
            ObjWhy::ShortFace,
        ),
        (
            "the first faulty line",
            b"f 1 2 3\nv x\nf 1\n",
            5,
            ObjWhy::BadNumber(1),
        ),
    ];
    for (name, lines, line, why) in cases {
        for most in MOSTS {
            assert!(rt; most > 0);
            let mut src = source_of(alloc, &[THREE, lines], most, &[])?;
            assert_eq!(rt;
                read_obj(alloc, &mut src, 1024).err(),
                Some(ObjFault::Line { line, why }),
                "{name}, {most}"
            );
        }
    }
    Ok(())
}

#[test]
fn finds_no_triangle(rt: HostRuntime) -> Result<(), Fail> {
    let alloc = rt.alloc();
    let cases: [(&str, &[&[u8]]); 5] = [
        ("no byte", &[]),
        ("no face", &[THREE]),
        ("a comment", &[THREE, b"# f 1 2 3"]),
        ("equal corners", &[THREE, b"f 1 2 1\nf 3 3 3\n"]),
        (
            "points that round to one",
            &[b"v 0 0 0\nv 0.0001 0 0\nv 1 0 0\nf 1 2 3\n"],
        ),
    ];
    for (name, parts) in cases {
        let mut src = source_of(alloc, parts, 9, &[])?;
        let fault = read_obj(alloc, &mut src, 1024).err();
        assert_eq!(rt; fault, Some(ObjFault::Empty), "{name}");
    }
    Ok(())
}

#[test]
fn rounds_by_the_scale(rt: HostRuntime) -> Result<(), Fail> {
    let alloc = rt.alloc();
    let mut src = source_of(
        alloc,
        &[b"v -0.0005 0.0005 65536\nv 1.5 -1.5 0\nv 0 0 1e3\nf 1 2 3"],
        9,
        &[],
    )?;
    assert_eq!(rt;
        read_obj(alloc, &mut src, 1000).err(),
        Some(ObjFault::Line {
            line: 1,
            why: ObjWhy::OutOfRange(3)
        })
    );
    let mut src = source_of(
        alloc,
        &[b"v -0.5 0.5 65536\nv 1.5 -1.5 0\nv 0 0 1e3\nf 1 2 3"],
        9,
        &[],
    )?;
    let tris = read_obj(alloc, &mut src, 1)?;
    let want = Tri {
        a: Pt {
            x: 0,
            y: 1,
            z: 65_536,
        },
        b: Pt { x: 2, y: -1, z: 0 },
        c: Pt {
            x: 0,
            y: 0,
            z: 1000,
        },
    };
    assert_eq!(rt; tris.as_slice(), [want].as_slice());
    Ok(())
}

#[test]
fn keeps_at_most_1048576_triangles(rt: HostRuntime) -> Result<(), Fail> {
    let alloc = rt.alloc();
    let text = long_face(alloc, 524_288, b" 2")?;
    let mut src = source_of(alloc, &[&text], 1_000_000, &[])?;
    assert_eq!(rt; read_obj(alloc, &mut src, 1024)?.len(), 1_048_576);

    let cases: [(&str, &[u8], ObjFault); 3] = [
        ("one corner more", b" 2 3", ObjFault::TooMany),
        (
            "one face more",
            b" 2\nf 1 2 3\nf x y z\n",
            ObjFault::TooMany,
        ),
        (
            "a faulty corner of that line",
            b" 2 3 x\n",
            ObjFault::Line {
                line: 4,
                why: ObjWhy::BadCorner(1_048_580),
            },
        ),
    ];
    for (name, last, want) in cases {
        let text = long_face(alloc, 524_288, last)?;
        let mut src = source_of(alloc, &[&text], 1_000_000, &[])?;
        assert_eq!(rt; read_obj(alloc, &mut src, 1024).err(), Some(want), "{name}");
    }
    Ok(())
}

// The faulty line ends at byte 34.
#[test]
fn answers_where_a_read_failed(rt: HostRuntime) -> Result<(), Fail> {
    let alloc = rt.alloc();
    let fault = ObjFault::Line {
        line: 4,
        why: ObjWhy::NoSuchVertex(3),
    };
    let cases: [(&str, u32, &[u64], ObjFault); 5] = [
        ("the first read", 4096, &[1], ObjFault::Read),
        ("the read before the LF", 1, &[33], ObjFault::Read),
        ("the read of the LF", 1, &[34], ObjFault::Read),
        ("the read behind the LF", 1, &[35], fault),
        ("the second of all", 4096, &[2], fault),
    ];
    for (name, most, failing, want) in cases {
        assert!(rt; most > 0);
        let mut src = source_of(alloc, &[THREE, b"f 1 2 4\nf 1 2 3\n"], most, failing)?;
        assert_eq!(rt; read_obj(alloc, &mut src, 1024).err(), Some(want), "{name}");
    }
    for failing in 1..=35 {
        let mut src = source_of(alloc, &[THREE, b"f 1 2 3\n"], 1, &[failing])?;
        assert_eq!(rt; read_obj(alloc, &mut src, 1024).err(), Some(ObjFault::Read));
    }
    let mut src = source_of(alloc, &[THREE, b"f 1 2 3\n"], 1, &[36])?;
    assert_eq!(rt; read_obj(alloc, &mut src, 1024)?.len(), 1);
    Ok(())
}

// Under each refused growth in turn: the answer, or that memory ran out.
#[test]
fn reads_or_runs_out_of_memory(rt: HostRuntime) {
    let alloc = rt.alloc();
    if let Ok(mut src) = source_of(alloc, &[PLANE], 9, &[]) {
        match read_obj(alloc, &mut src, 1024) {
            Ok(tris) => assert_eq!(rt; tris.as_slice(), [ABC, ACD].as_slice()),
            Err(fault) => assert_eq!(rt; fault, ObjFault::Memory),
        }
    }
}

#[test]
fn prints_faults(rt: HostRuntime) -> Result<(), Fail> {
    let at_4 = |why| ObjFault::Line { line: 4, why };
    let cases = [
        (at_4(ObjWhy::BadNumber(3)), "line 4: bad number 3"),
        (at_4(ObjWhy::OutOfRange(1)), "line 4: out of range 1"),
        (at_4(ObjWhy::BadCorner(2)), "line 4: bad corner 2"),
        (at_4(ObjWhy::NoSuchVertex(3)), "line 4: no such vertex 3"),
        (at_4(ObjWhy::ShortFace), "line 4: short face"),
        (ObjFault::TooMany, "more than 1048576 triangles"),
        (ObjFault::TooLong, "input too long"),
        (ObjFault::Empty, "no triangle"),
        (ObjFault::Read, "input could not be read"),
        (ObjFault::Memory, "out of memory"),
    ];
    for (fault, want) in cases {
        let line = format!(in rt.alloc(); "{fault}")?;
        assert_eq!(rt; line.as_str(), want);
    }
    Ok(())
}
