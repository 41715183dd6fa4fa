use crate::{ScriptFault, read_script};
use std::alloc::Global;
use std::test::Fail;

/// A camera whose numbers are in their ranges.
const CAMERA: &str = "[16,16384,16,12,4,-16,16384,0,0,0,16384,0,0,0,16384]";

/// Returns the number of shots of a text, or its fault as `Debug` prints it.
fn answer(alloc: Global, text: &[u8]) -> Result<String, Fail> {
    match read_script(alloc, text) {
        Ok(script) => Ok(format!(in alloc; "{} shots", script.shots.as_slice().len())?),
        Err(fault) => Ok(format!(in alloc; "{fault:?}")?),
    }
}

/// Returns the answer to a script with this size and these frames.
fn answer_to(alloc: Global, size: &str, frames: &str) -> Result<String, Fail> {
    let text = format!(in alloc; "{{\"size\":{size},\"frames\":{frames}}}")?;
    answer(alloc, text.as_bytes())
}

/// Returns the answer to a script of one frame with these members.
fn answer_to_frame(alloc: Global, camera: &str, others: &str) -> Result<String, Fail> {
    let frames = format!(in alloc; "[{{\"camera\":{camera}{others}}}]")?;
    answer_to(alloc, "[4,4]", frames.as_str())
}

#[test]
fn whole_texts_are_judged(rt: HostRuntime) -> Result<(), Fail> {
    let cases: [(&str, &[u8], &str); 15] = [
        ("no byte", b"", "Bad { frame: None, why: Text }"),
        ("no end", b"[", "Bad { frame: None, why: Text }"),
        ("an array", b"[]", "Bad { frame: None, why: Shape }"),
        ("a number", b"7", "Bad { frame: None, why: Shape }"),
        ("no member", b"{}", "Bad { frame: None, why: Shape }"),
        (
            "no frames",
            b"{\"size\":[4,4],\"frames\":[]}",
            "Bad { frame: None, why: Count }",
        ),
        (
            "one member",
            b"{\"size\":[4,4]}",
            "Bad { frame: None, why: Shape }",
        ),
        (
            "a third member",
            b"{\"size\":[0,4],\"frames\":[],\"more\":1}",
            "Bad { frame: None, why: Shape }",
        ),
        (
            "frames that are an object",
            b"{\"size\":[0,4],\"frames\":{}}",
            "Bad { frame: None, why: Shape }",
        ),
        (
            "a size before a count",
            b"{\"size\":[0,4],\"frames\":[]}",
            "Bad { frame: None, why: Size }",
        ),
        (
            "a lone surrogate",
            b"[\"\\ud800\"]",
            "Bad { frame: None, why: Text }",
        ),
        (
            "bytes that are not UTF-8",
            b"[\"\xff\"]",
            "Bad { frame: None, why: Text }",
        ),
        (
            "a byte order mark",
            b"\xef\xbb\xbf{}",
            "Bad { frame: None, why: Text }",
        ),
        (
            "a control byte",
            b"[\"\x01\"]",
            "Bad { frame: None, why: Text }",
        ),
        (
            "a number past all floats",
            b"1e999",
            "Bad { frame: None, why: Text }",
        ),
    ];
    for (name, text, want) in cases {
        let found = answer(rt.alloc(), text)?;
        assert_eq!(rt; found.as_str(), want, "{name}");
    }
    Ok(())
}

#[test]
fn sizes_are_judged(rt: HostRuntime) -> Result<(), Fail> {
    let cases = [
        ("the greatest", "[512,1]", "Bad { frame: None, why: Count }"),
        ("one side", "[4]", "Bad { frame: None, why: Size }"),
        ("three sides", "[4,4,4]", "Bad { frame: None, why: Size }"),
        ("width 0", "[0,4]", "Bad { frame: None, why: Size }"),
        ("height 0", "[4,0]", "Bad { frame: None, why: Size }"),
        ("width 513", "[513,4]", "Bad { frame: None, why: Size }"),
        (
            "a negative width",
            "[-4,4]",
            "Bad { frame: None, why: Size }",
        ),
        ("a fraction", "[4.0,4]", "Bad { frame: None, why: Size }"),
        ("a text", "[\"4\",4]", "Bad { frame: None, why: Size }"),
        (
            "an object",
            "{\"width\":4,\"height\":4}",
            "Bad { frame: None, why: Size }",
        ),
        (
            "2^32 and 4",
            "[4294967300,4]",
            "Bad { frame: None, why: Size }",
        ),
    ];
    for (name, size, want) in cases {
        let found = answer_to(rt.alloc(), size, "[]")?;
        assert_eq!(rt; found.as_str(), want, "{name}");
    }
    Ok(())
}

#[test]
fn frames_are_judged(rt: HostRuntime) -> Result<(), Fail> {
    let cases = [
        ("a frame", ",\"settle\":true,\"print\":false", "1 shots"),
        (
            "no print",
            ",\"settle\":true",
            "Bad { frame: Some(0), why: Member }",
        ),
        (
            "no settle",
            ",\"print\":true",
            "Bad { frame: Some(0), why: Member }",
        ),
        (
            "one member more",
            ",\"settle\":true,\"print\":false,\"more\":1",
            "Bad { frame: Some(0), why: Member }",
        ),
        (
            "another name",
            ",\"settle\":true,\"prints\":false",
            "Bad { frame: Some(0), why: Member }",
        ),
        (
            "settle that is 1",
            ",\"settle\":1,\"print\":false",
            "Bad { frame: Some(0), why: Member }",
        ),
        (
            "print that is null",
            ",\"settle\":true,\"print\":null",
            "Bad { frame: Some(0), why: Member }",
        ),
        (
            "equal keys, the last one good",
            ",\"settle\":1,\"print\":false,\"settle\":true",
            "1 shots",
        ),
        (
            "equal keys, the last one bad",
            ",\"settle\":true,\"print\":false,\"settle\":1",
            "Bad { frame: Some(0), why: Member }",
        ),
    ];
    for (name, others, want) in cases {
        let found = answer_to_frame(rt.alloc(), CAMERA, others)?;
        assert_eq!(rt; found.as_str(), want, "{name}");
    }
    Ok(())
}

#[test]
fn cameras_are_judged(rt: HostRuntime) -> Result<(), Fail> {
    let cases = [
        ("no array", "4", "Bad { frame: Some(0), why: Member }"),
        (
            "fourteen numbers",
            "[16,16384,16,12,4,-16,16384,0,0,0,16384,0,0,0]",
            "Bad { frame: Some(0), why: Member }",
        ),
        (
            "sixteen numbers",
            "[16,16384,16,12,4,-16,16384,0,0,0,16384,0,0,0,16384,0]",
            "Bad { frame: Some(0), why: Member }",
        ),
        (
            "a zero with a sign",
            "[0,16384,16,12,4,-16,16384,0,0,0,16384,0,0,-0,16384]",
            "Bad { frame: Some(0), why: Member }",
        ),
        (
            "a fraction of 0",
            "[16,16384,16,12,4,-16,16384,0,0,1.0,16384,0,0,0,16384]",
            "Bad { frame: Some(0), why: Member }",
        ),
        (
            "an exponent",
            "[1e3,16384,16,12,4,-16,16384,0,0,0,16384,0,0,0,16384]",
            "Bad { frame: Some(0), why: Member }",
        ),
        (
            "2^63",
            "[16,9223372036854775808,16,12,4,-16,16384,0,0,0,16384,0,0,0,16384]",
            "Bad { frame: Some(0), why: Member }",
        ),
        (
            "2^63 - 1",
            "[16,9223372036854775807,16,12,4,-16,16384,0,0,0,16384,0,0,0,16384]",
            "Bad { frame: Some(0), why: Camera(1) }",
        ),
        (
            "-2^63",
            "[16,16384,16,-9223372036854775808,4,-16,16384,0,0,0,16384,0,0,0,16384]",
            "Bad { frame: Some(0), why: Camera(3) }",
        ),
        (
            "-2^63 - 1",
            "[16,16384,16,-9223372036854775809,4,-16,16384,0,0,0,16384,0,0,0,16384]",
            "Bad { frame: Some(0), why: Member }",
        ),
        (
            "focal length 0",
            "[0,16384,16,12,4,-16,16384,0,0,0,16384,0,0,0,16384]",
            "Bad { frame: Some(0), why: Camera(0) }",
        ),
        (
            "the last entry past 1",
            "[16,16384,16,12,4,-16,16384,0,0,0,16384,0,0,0,16385]",
            "Bad { frame: Some(0), why: Camera(14) }",
        ),
        (
            "two bad entries",
            "[16,16384,65536,12,4,-16,16384,0,0,0,16384,0,0,0,16385]",
            "Bad { frame: Some(0), why: Camera(2) }",
        ),
    ];
    for (name, camera, want) in cases {
        let found = answer_to_frame(rt.alloc(), camera, ",\"settle\":true,\"print\":false")?;
        assert_eq!(rt; found.as_str(), want, "{name}");
    }
    Ok(())
}

/// Returns the frames of a script: `prints` printed ones, then as many not printed ones as the count wants.
fn frames(alloc: Global, count: u32, prints: u32) -> Result<String, Fail> {
    let mut text = String::from_str(alloc, "[")?;
    for frame in 0..count {
        let comma = if frame > 0 { "," } else { "" };
        let print = frame < prints;
        let shot = format!(in alloc;
            "{comma}{{\"camera\":{CAMERA},\"settle\":false,\"print\":{print}}}"
        )?;
        text.push_str(shot.as_str())?;
    }
    text.push_str("]")?;
    Ok(text)
}

#[test]
fn counts_are_judged(rt: HostRuntime) -> Result<(), Fail> {
    let cases = [
        (1_024, 0, "1024 shots"),
        (1_025, 0, "Bad { frame: None, why: Count }"),
        (65, 64, "65 shots"),
        (65, 65, "Bad { frame: Some(64), why: Prints }"),
    ];
    for (count, prints, want) in cases {
        let text = frames(rt.alloc(), count, prints)?;
        let found = answer_to(rt.alloc(), "[4,4]", text.as_str())?;
        assert_eq!(rt; found.as_str(), want, "{count} frames, {prints} printed");
    }
    Ok(())
}

#[test]
fn the_first_faulty_frame_counts(rt: HostRuntime) -> Result<(), Fail> {
    let text = format!(in rt.alloc();
        "[{{\"camera\":{CAMERA},\"settle\":true,\"print\":true}},\
        {{\"camera\":[],\"settle\":true,\"print\":true}},7]"
    )?;
    let found = answer_to(rt.alloc(), "[4,4]", text.as_str())?;
    assert_eq!(rt; found.as_str(), "Bad { frame: Some(1), why: Member }");
    Ok(())
}

#[test]
fn levels_are_limited(rt: HostRuntime) -> Result<(), Fail> {
    let cases = [
        (127, "Bad { frame: None, why: Shape }"),
        (128, "Bad { frame: None, why: Text }"),
    ];
    for (levels, want) in cases {
        let mut text = Vec::new(rt.alloc());
        for _ in 0..levels {
            text.push(b'[')?;
        }
        for _ in 0..levels {
            text.push(b']')?;
        }
        let found = answer(rt.alloc(), text.as_slice())?;
        assert_eq!(rt; found.as_str(), want, "{levels} levels");
    }
    Ok(())
}

#[test]
fn want_of_memory_is_no_other_fault(rt: HostRuntime) {
    let text =
        b"{\"size\":[4,4],\"frames\":[{\"settle\":true,\"print\":false,\"camera\":[16,16384,16,12,4,-16,16384,0,0,0,16384,0,0,0,16384]}]}";
    match read_script(rt.alloc(), text) {
        Ok(script) => assert_eq!(rt; script.shots.as_slice().len(), 1),
        Err(fault) => assert_eq!(rt; fault, ScriptFault::Memory),
    }
}
