ghost use Rattle.std.specs.Prelude.{◌≤◌};

use crate::{Done, Fault, OpenFault, UsageKind, geode};
use dag_core::Counts;
use geom_core::Memory;
use obj_source::ObjWhy;
use page_sources::MemoryPages;
use span_io::{MemorySink, MemorySource};
use std::alloc::Global;
use std::process::Abort;
use std::test::Fail;

/// A camera 4,096 grid steps above the plane, looking down.
const ABOVE: &str = "4,33554432,0,0,4096,0,16384,0,0,0,0,16384,0,-16384,0";

/// The same camera with its near plane at a distance of 1,048,576 grid steps.
const FAR: &str = "4,17179869184,0,0,4096,0,16384,0,0,0,0,16384,0,-16384,0";

/// A camera off every axis and turned about two of them.
const TURNED: &str = "3,1048576,0,900,2500,1700,13107,0,-9830,-5899,13107,-7864,-7864,-9830,-10486";

const TRIANGLE: &str = "v -1 0 1\nv 1 0 1\nv 1 0 -1\nf 1 2 3\n";

const SQUARE: &str = "v -1 0 1\nv 1 0 1\nv 1 0 -1\nv -1 0 -1\nf 1 2 3\nf 1 3 4\n";

/// `TRIANGLE` from its other side.
const TURNED_ROUND: &str = "v -1 0 1\nv 1 0 1\nv 1 0 -1\nf 3 2 1\n";

/// `TRIANGLE` at exactly the near-plane distance of `ABOVE`.
const AT_NEAR: &str = "v -1 2 1\nv 1 2 1\nv 1 2 -1\nf 1 2 3\n";

/// Two triangles over the same pixels, the first of them nearer.
const NEARER_FIRST: &str = "v -1 1 1\nv 1 1 1\nv 1 1 -1\nv -2 0 2\nv 2 0 2\nv 2 0 -2\n\
    f 1 2 3\nf 4 5 6\n";

/// A triangle with a different depth at each corner.
const SLOPING: &str = "v -1 0.5 0.25\nv 1.25 0 0.75\nv 0.5 -0.25 -1.5\nf 1 2 3\n";

const SLANTED: &str = "v -1 0 1\nv 1 0 1\nv 1 1 -1\nf 1 2 3\n";

const CORNERS: &str = "v -1 0 1\nv 1 0 1\nv 1 0 -1\n";

const NEGATIVE_INDEX: &str = "v -1 0 1\nv 1 0 1\nv 1 0 -1\nf 1 2 -1\n";

const SLASHED: &str = "v -1 0 1\nv 1 0 1\nv 1 0 -1\nf\t1//7  2/ 3/x # a face\n";

const UNENDED: &str = "v -1 0 1\nv 1 0 1\nv 1 0 -1\nf 1 2 3";

const EQUAL_POINTS: &str = "v 0 0 0\nv 0.0001 0 0\nv 1 0 0\nf 1 2 3\n";

pub(crate) const EXPORT: &str =
    "# Blender\nmtllib plane.mtl\no Plane\nv -1.000000 0.000000 1.000000\n\
    v 1.000000 0.000000 1.000000\nv -1.000000 0.000000 -1.000000\n\
    v 1.000000 0.000000 -1.000000\nvn -0.0000 1.0000 -0.0000\nvt 0.000000 0.000000\n\
    vt 1.000000 0.000000\nvt 0.000000 1.000000\nvt 1.000000 1.000000\ns 0\n\
    usemtl Material\nf 1/1/1 2/2/1 4/3/1 3/4/1\n";

// Words of pixels, each from a model apart from this program: no triangle; the first and the second triangle;
// two depths of the slanted one; the triangle with the number 1,048,575, and that with the number 129; a
// triangle one unit above the plane, and one at the near plane; three depths of the sloping one.
const O: &str = "0000000000000000";

const A: &str = "7ffffffc00000000";

const B: &str = "7ffffffc00000001";

const P: &str = "9af286b800000000";

const Q: &str = "88fb823800000000";

const Z: &str = "7ffffffc000fffff";

const Y: &str = "7ffffffc00000081";

const H: &str = "aaaaaaa800000000";

const N: &str = "fffffffc00000000";

const R: &str = "07763dc000000000";

const S: &str = "064e5e5000000000";

const T: &str = "057f379000000000";

/// The words of a picture of 3 by 5 pixels, row by row.
type NarrowPixels = [&'static str; 15];

const NARROW: NarrowPixels = [O, O, O, O, O, O, O, A, O, O, O, O, O, O, O];

const NARROW_129: NarrowPixels = [O, O, O, O, O, O, O, Y, O, O, O, O, O, O, O];

const NARROW_NEARER: NarrowPixels = [O, O, O, O, O, H, O, H, H, H, H, H, O, O, O];

const NARROW_AT_NEAR: NarrowPixels = [O, O, O, O, O, N, O, N, N, N, N, N, O, O, O];

const NARROW_TURNED: NarrowPixels = [O, O, R, O, S, T, O, O, O, O, O, O, O, O, O];

/// The words of a picture of 4 by 4 pixels, row by row.
type Pixels = [&'static str; 16];

const DARK: Pixels = [O, O, O, O, O, O, O, O, O, O, O, O, O, O, O, O];

const ONE: Pixels = [O, O, O, O, O, O, A, O, O, A, A, O, O, O, O, O];

const TWO: Pixels = [O, O, O, O, O, B, A, O, O, A, A, O, O, O, O, O];

const DEEP: Pixels = [O, O, O, O, O, O, P, O, O, Q, Q, O, O, O, O, O];

const LAST: Pixels = [O, O, O, O, O, O, Z, O, O, Z, Z, O, O, O, O, O];

/// Bytes of room in the sink: three pages and more than their directory.
const ROOM: u64 = 262_144;

/// The bytes of the text of such a picture.
const TEXT_LEN: u64 = 272;

/// Returns the text of a picture of 4 by 4 pixels.
fn text_of(alloc: Global, pixels: &Pixels) -> Result<Vec<u8>, Memory> {
    text_of_rows(alloc, pixels, 4)
}

/// Returns the text of a picture of this width.
fn text_of_rows(alloc: Global, pixels: &[&str], width: usize) -> Result<Vec<u8>, Memory>
    requires { 1 ≤ width }
{
    let mut text = Vec::new(alloc);
    for (pixel, word) in pixels.iter().enumerate() {
        text.extend_from_slice(word.as_bytes())?;
        text.push(if pixel % width == width - 1 {
            b'\n'
        } else {
            b' '
        })?;
    }
    Ok(text)
}

/// The behaviour of a source and a sink: the most bytes of a call, and which call of each fails, from 1; if
/// 0, none fails.
#[derive(Clone, Copy)]
pub(crate) struct Calls {
    pub(crate) most: u32,
    pub(crate) failing_read: u64,
    pub(crate) failing_write: u64,
}

pub(crate) const SOUND: Calls = Calls {
    most: 65_536,
    failing_read: 0,
    failing_write: 0,
};

/// What a run came to, and what the run wrote.
#[derive(Drop)]
pub(crate) struct Outcome {
    /// `drawn`, `audited N`, `made`, `built` and the five counts, or the line of the fault.
    pub(crate) said: String,
    pub(crate) written: Vec<u8>,
}

impl Outcome {
    fn says(&self, what: &str) -> bool {
        self.said.as_str() == what
    }
}

/// Returns what was done with a file and its counts, as a text.
fn said_counts(alloc: Global, what: &str, counts: Counts) -> Result<String, Memory> {
    let Counts {
        groups,
        clusters,
        pages,
        roots,
        sources,
    } = counts;
    Ok(format!(in alloc; "{what} {groups} {clusters} {pages} {roots} {sources}")?)
}

/// Returns an answer as a text.
pub(crate) fn said(alloc: Global, answer: &Result<Done, Fault>) -> Result<String, Memory> {
    Ok(match answer {
        Ok(Done::Drawn) => format!(in alloc; "drawn")?,
        Ok(Done::Audited { entries }) => format!(in alloc; "audited {entries}")?,
        Ok(Done::Made) => format!(in alloc; "made")?,
        Ok(Done::Built(counts)) => said_counts(alloc, "built", *counts)?,
        Ok(Done::Verified(counts)) => said_counts(alloc, "verified", *counts)?,
        Err(fault) => format!(in alloc; "{fault}")?,
    })
}

pub(crate) fn run(
    alloc: Global,
    words: &[&str],
    text: &str,
    calls: Calls,
) -> Result<Outcome, Memory>
    requires { 1 ≤ calls.most }
{
    let text = text.as_bytes().to_vec(alloc)?;
    let failing_reads = vec![in alloc; calls.failing_read]?;
    let failing_writes = vec![in alloc; calls.failing_write]?;
    let mut input = MemorySource::of(text, calls.most, failing_reads);
    let mut out = MemorySink::of(alloc, ROOM, calls.most, failing_writes)?;
    let mut sources: Vec<MemoryPages> = Vec::new(alloc);
    let answer = geode(alloc, words, &mut input, &mut sources, &mut out);
    Ok(Outcome {
        said: said(alloc, &answer)?,
        written: out.into_bytes(),
    })
}

/// One byte a call.
const SLOW: Calls = Calls { most: 1, ..SOUND };

/// The words that ask for a picture of 4 by 4 pixels.
const DRAW: &[&str] = &["draw", "4", "4", ABOVE];

/// Returns the text with CR and LF at the end of each line.
fn with_returns(alloc: Global, text: &str) -> Result<String, Memory> {
    let mut longer = String::new(alloc);
    for line in text.lines() {
        longer.push_str(line)?;
        longer.push_str("\r\n")?;
    }
    Ok(longer)
}

/// Returns `CORNERS` with one more line.
fn with_line(alloc: Global, line: &str) -> Result<String, Memory> {
    Ok(format!(in alloc; "{CORNERS}{line}\n")?)
}

/// Returns one polygon with this number of pairs of corners after its first corner, so that none of its
/// triangles is dropped.
fn with_pairs(alloc: Global, pairs: u32) -> Result<String, Memory> {
    let mut text = format!(in alloc; "{CORNERS}f 1")?;
    for _ in 0..pairs {
        text.push_str(" 2 3")?;
    }
    Ok(text)
}

/// Draws a text in whole pieces and byte by byte, and compares the picture.
fn assert_drawn(
    rt: &impl Abort,
    alloc: Global,
    name: &str,
    text: &str,
    camera: &str,
    pixels: &Pixels,
) -> Result<(), Fail> {
    for calls in [SOUND, SLOW] {
        let outcome = run(alloc, &["draw", "4", "4", camera], text, calls)?;
        assert!(rt; outcome.says("drawn"), "{name}");
        assert_eq!(rt; outcome.written, text_of(alloc, pixels)?, "{name}");
    }
    Ok(())
}

#[test]
fn draws(rt: HostRuntime) -> Result<(), Fail> {
    let cases = [
        ("one triangle", TRIANGLE, ABOVE, ONE),
        ("two triangles that share an edge", SQUARE, ABOVE, TWO),
        ("a slanted triangle", SLANTED, ABOVE, DEEP),
        ("too near to be seen", TRIANGLE, FAR, DARK),
    ];
    for (name, text, camera, pixels) in cases {
        assert_drawn(&rt, rt.alloc(), name, text, camera, &pixels)?;
    }
    Ok(())
}

/// Draws a text in whole pieces and byte by byte, and compares the picture of 3 by 5 pixels.
fn assert_drawn_narrow(
    rt: &impl Abort,
    alloc: Global,
    name: &str,
    text: &str,
    camera: &str,
    pixels: &NarrowPixels,
) -> Result<(), Fail> {
    for calls in [SOUND, SLOW] {
        let outcome = run(alloc, &["draw", "3", "5", camera], text, calls)?;
        assert!(rt; outcome.says("drawn"), "{name}");
        assert_eq!(rt; outcome.written, text_of_rows(alloc, pixels, 3)?, "{name}");
    }
    Ok(())
}

#[test]
fn draws_pictures_that_are_not_square(rt: HostRuntime) -> Result<(), Fail> {
    let cases = [
        ("one triangle", TRIANGLE, ABOVE, NARROW),
        ("its other side", TURNED_ROUND, ABOVE, NARROW),
        (
            "the nearer triangle first",
            NEARER_FIRST,
            ABOVE,
            NARROW_NEARER,
        ),
        ("at the near plane", AT_NEAR, ABOVE, NARROW_AT_NEAR),
        ("a turned camera", SLOPING, TURNED, NARROW_TURNED),
    ];
    for (name, text, camera, pixels) in cases {
        assert_drawn_narrow(&rt, rt.alloc(), name, text, camera, &pixels)?;
    }
    Ok(())
}

#[test]
fn draws_triangle_129(rt: HostRuntime) -> Result<(), Fail> {
    let alloc = rt.alloc();
    let mut text = format!(in alloc; "{CORNERS}v 900 0 900\nv 901 0 900\nv 900 0 901\nf 4")?;
    for _ in 0..65 {
        text.push_str(" 5 6")?;
    }
    text.push_str("\nf 1 2 3\n")?;
    assert_drawn_narrow(&rt, alloc, "triangle 129", &text, ABOVE, &NARROW_129)
}

#[test]
fn draws_other_forms(rt: HostRuntime) -> Result<(), Fail> {
    let cases = [
        ("a negative index", NEGATIVE_INDEX),
        ("slashes, tabs and a comment", SLASHED),
        ("no last line feed", UNENDED),
    ];
    for (name, text) in cases {
        assert_drawn(&rt, rt.alloc(), name, text, ABOVE, &ONE)?;
    }
    Ok(())
}

#[test]
fn draws_an_export(rt: HostRuntime) -> Result<(), Fail> {
    assert_drawn(&rt, rt.alloc(), "line feeds", EXPORT, ABOVE, &TWO)
}

#[test]
fn draws_an_export_with_returns(rt: HostRuntime) -> Result<(), Fail> {
    let text = with_returns(rt.alloc(), EXPORT)?;
    assert_drawn(&rt, rt.alloc(), "returns", &text, ABOVE, &TWO)
}

/// Draws a text in whole pieces and byte by byte, and compares the fault.
fn assert_refused(
    rt: &impl Abort,
    alloc: Global,
    name: &str,
    text: &str,
    fault: &str,
) -> Result<(), Fail> {
    for calls in [SOUND, SLOW] {
        let outcome = run(alloc, DRAW, text, calls)?;
        assert_eq!(rt; outcome.said.as_str(), fault, "{name}");
        assert!(rt; outcome.written.is_empty(), "{name}");
    }
    Ok(())
}

#[test]
fn the_first_fault_of_a_mesh_is_reported(rt: HostRuntime) -> Result<(), Fail> {
    let cases = [
        ("no bytes", "", "no triangle"),
        ("vertices alone", CORNERS, "no triangle"),
        ("equal once rounded", EQUAL_POINTS, "no triangle"),
        ("no third number", "v 1 2", "line 1: bad number 3"),
        ("a word", "\nv 1 nan 2\n", "line 2: bad number 2"),
        ("before Empty", "\t\nf 1 1\n", "line 2: short face"),
    ];
    for (name, text, fault) in cases {
        assert_refused(&rt, rt.alloc(), name, text, fault)?;
    }
    Ok(())
}

#[test]
fn the_first_fault_of_a_face_is_reported(rt: HostRuntime) -> Result<(), Fail> {
    let cases = [
        ("a repeated corner", "f 1 2 2", "no triangle"),
        ("vertex 0", "f 1 2 0", "line 4: no such vertex 3"),
        ("vertex 4 of 3", "f 1 2 4", "line 4: no such vertex 3"),
        ("two corners", "f 1 2", "line 4: short face"),
        ("no number", "f 1 2 x", "line 4: bad corner 3"),
        ("a plus", "f 1 +2 x", "line 4: bad corner 2"),
        (
            "a vertex out of range, after a face",
            "f 1 2 3\nv 0 0 1025 # far\nf 1 2 x",
            "line 5: out of range 3",
        ),
    ];
    for (name, face, fault) in cases {
        let text = with_line(rt.alloc(), face)?;
        assert_refused(&rt, rt.alloc(), name, &text, fault)?;
    }
    Ok(())
}

#[test]
fn the_most_triangles_are_drawn(rt: HostRuntime) -> Result<(), Fail> {
    let alloc = rt.alloc();
    let mut text = with_pairs(alloc, 524_288)?;
    text.push_str(" 2")?;
    let outcome = run(alloc, DRAW, &text, SOUND)?;
    assert_eq!(rt; outcome.said.as_str(), "drawn");
    assert_eq!(rt; outcome.written, text_of(alloc, &LAST)?);
    Ok(())
}

#[test]
fn one_triangle_more_is_refused(rt: HostRuntime) -> Result<(), Fail> {
    let alloc = rt.alloc();
    let mut text = with_pairs(alloc, 524_289)?;
    let outcome = run(alloc, DRAW, &text, SOUND)?;
    assert_eq!(rt; outcome.said.as_str(), "more than 1048576 triangles");
    assert!(rt; outcome.written.is_empty());
    text.push_str(" 4")?;
    let outcome = run(alloc, DRAW, &text, SOUND)?;
    let fault = "line 4: no such vertex 1048580";
    assert_eq!(rt; outcome.said.as_str(), fault);
    Ok(())
}

#[test]
fn wrong_words_are_refused(rt: HostRuntime) -> Result<(), Fail> {
    let cases: [(&str, &[&str], &str); 3] = [
        ("no camera", &["draw", "4", "4"], TRIANGLE),
        ("no words", &[], TRIANGLE),
        ("a word after `audit`", &["audit", "-"], "layout 1 1 1"),
    ];
    for (name, words, text) in cases {
        let outcome = run(rt.alloc(), words, text, SOUND)?;
        assert_eq!(rt; outcome.said.as_str(), "usage: line", "{name}");
        assert!(rt; outcome.written.is_empty(), "{name}");
    }
    Ok(())
}

/// A fault of a line.
fn line(line: u32, why: ObjWhy) -> Fault {
    Fault::BadObj { line, why }
}

/// Compares the line that is printed for a fault.
fn assert_shown(
    rt: &impl Abort,
    alloc: Global,
    fault: Fault,
    status: u8,
    want: &str,
) -> Result<(), Fail> {
    assert_eq!(rt; fault.status(), status, "{want}");
    let shown = format!(in alloc; "{fault}")?;
    assert_eq!(rt; shown.as_str(), want);
    Ok(())
}

#[test]
fn shows_faults(rt: HostRuntime) -> Result<(), Fail> {
    let cases = [
        (Fault::Usage(UsageKind::Line), 3, "usage: line"),
        (Fault::ReadFault, 4, "input could not be read"),
        (Fault::TooLong, 9, "input too long"),
        (Fault::TooMany, 8, "more than 1048576 triangles"),
        (Fault::Empty, 7, "no triangle"),
        (Fault::BadJournal { line: 7 }, 11, "journal line 7"),
        (
            Fault::NoSource { need: 3, have: 2 },
            12,
            "3 sources needed, 2 given",
        ),
        (Fault::PageFault, 14, "page file could not be read"),
        (
            Fault::Unsound { rule: 7, index: 6 },
            16,
            "rule 7 broken at 6",
        ),
        (Fault::Illegal { entry: 0 }, 17, "entry 0 not allowed"),
        (Fault::WriteFault, 5, "output could not be written"),
        (Fault::Memory, 2, "out of memory"),
    ];
    for (fault, status, want) in cases {
        assert_shown(&rt, rt.alloc(), fault, status, want)?;
    }
    Ok(())
}

#[test]
fn shows_faults_of_page_files(rt: HostRuntime) -> Result<(), Fail> {
    let cases = [
        (OpenFault::Version { found: 3 }, "page file: version 3"),
        (
            OpenFault::Truncated { at: 100 },
            "page file: truncated at 100",
        ),
        (
            OpenFault::DirectoryBad {
                rule: 4,
                offset: 44,
            },
            "page file: directory rule 4 broken at 44",
        ),
        (
            OpenFault::Rule {
                number: 0,
                index: 2,
            },
            "page file: rule 0 broken at 2",
        ),
        (
            OpenFault::PageBad {
                page: 2,
                rule: 4,
                offset: 65_535,
            },
            "page file: page 2 rule 4 broken at 65535",
        ),
    ];
    for (why, want) in cases {
        assert_shown(&rt, rt.alloc(), Fault::Pages(why), 13, want)?;
    }
    Ok(())
}

#[test]
fn shows_faults_of_lines(rt: HostRuntime) -> Result<(), Fail> {
    let cases = [
        (ObjWhy::BadNumber(3), "line 4: bad number 3"),
        (ObjWhy::OutOfRange(1), "line 4: out of range 1"),
        (ObjWhy::BadCorner(2), "line 4: bad corner 2"),
        (ObjWhy::NoSuchVertex(3), "line 4: no such vertex 3"),
        (ObjWhy::ShortFace, "line 4: short face"),
    ];
    for (why, want) in cases {
        assert_shown(&rt, rt.alloc(), line(4, why), 6, want)?;
    }
    Ok(())
}

#[test]
fn a_third_write_of_ten_bytes_fails(rt: HostRuntime) -> Result<(), Fail> {
    let alloc = rt.alloc();
    let calls = Calls {
        most: 10,
        failing_write: 3,
        ..SOUND
    };
    let outcome = run(alloc, DRAW, TRIANGLE, calls)?;
    assert_eq!(rt; outcome.said.as_str(), "output could not be written");
    assert!(rt; outcome.written.len() <= 20);
    assert!(rt; text_of(alloc, &ONE)?.starts_with(&outcome.written));
    Ok(())
}

#[test]
fn each_read_fails(rt: HostRuntime) -> Result<(), Fail> {
    let alloc = rt.alloc();
    let reads = TRIANGLE.len() as u64 + 1;
    for failing_read in 1..=reads {
        let calls = Calls {
            failing_read,
            ..SLOW
        };
        let outcome = run(alloc, DRAW, TRIANGLE, calls)?;
        assert_eq!(rt;
            outcome.said.as_str(),
            "input could not be read",
            "read {failing_read}"
        );
        assert!(rt; outcome.written.is_empty(), "read {failing_read}");
    }
    Ok(())
}

// Line 1 ends with the sixth byte, and no read is made once it was judged.
#[test]
fn no_read_follows_a_fault(rt: HostRuntime) -> Result<(), Fail> {
    let cases = [(6, "input could not be read"), (7, "line 1: bad number 3")];
    for (failing_read, fault) in cases {
        let calls = Calls {
            failing_read,
            ..SLOW
        };
        let outcome = run(rt.alloc(), DRAW, "v 1 2\nv 0 0 0\n", calls)?;
        assert_eq!(rt; outcome.said.as_str(), fault, "read {failing_read}");
    }
    Ok(())
}

// The last call is `finish`, before which the whole text was written.
#[test]
fn each_write_fails(rt: HostRuntime) -> Result<(), Fail> {
    let alloc = rt.alloc();
    let text = text_of(alloc, &ONE)?;
    assert_eq!(rt; text.len() as u64, TEXT_LEN);
    for failing_write in 1..=TEXT_LEN + 1 {
        let calls = Calls {
            failing_write,
            ..SLOW
        };
        let outcome = run(alloc, DRAW, TRIANGLE, calls)?;
        assert_eq!(rt;
            outcome.said.as_str(),
            "output could not be written",
            "write {failing_write}"
        );
        assert_eq!(rt; outcome.written.len() as u64, failing_write - 1);
        assert!(rt; text.starts_with(&outcome.written), "write {failing_write}");
    }
    Ok(())
}

// To be run with each allocation refused in turn: a refusal comes as `Memory`, with nothing written.
#[test]
fn draws_or_finds_no_memory(rt: HostRuntime) -> Result<(), Fail> {
    let alloc = rt.alloc();
    if let Ok(outcome) = run(alloc, DRAW, EXPORT, SOUND) {
        if outcome.said.as_str() == "out of memory" {
            assert!(rt; outcome.written.is_empty());
        } else {
            assert_eq!(rt; outcome.said.as_str(), "drawn");
            assert_eq!(rt; outcome.written.len() as u64, TEXT_LEN);
        }
    }
    Ok(())
}
