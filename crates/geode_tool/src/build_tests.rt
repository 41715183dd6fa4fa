use crate::tests::{Calls, EXPORT, SOUND, run};
use geom_core::Memory;
use std::alloc::Global;
use std::test::Fail;

const BUILD: &[&str] = &["build"];

/// Bytes of a file of one page, one group and one cluster: a header of 64 bytes, a directory of 84 and the page.
const ONE_PAGE: usize = 65_684;

/// What is said of the mesh of `EXPORT`.
const BUILT_EXPORT: &str = "built 1 1 1 1 2";

/// Returns the text of the first triangles of a strip of unit squares: of each square the one below its diagonal, then
/// the one above. No point of a strip can be collapsed, so that its first level is its last.
fn strip(alloc: Global, count: u16) -> Result<String, Memory> {
    let mut text = String::new(alloc);
    for column in 0..(u32::from(count) + 1) / 2 + 1 {
        let points = format!(in alloc; "v {column} 0 0\nv {column} 1 0\n")?;
        text.push_str(&points)?;
    }
    for number in 0..u32::from(count) {
        let low = number / 2 * 2 + 1;
        let (second, third) = if number % 2 == 0 {
            (low + 2, low + 3)
        } else {
            (low + 3, low + 1)
        };
        let face = format!(in alloc; "f {low} {second} {third}\n")?;
        text.push_str(&face)?;
    }
    Ok(text)
}

#[test]
fn builds_an_export(rt: HostRuntime) -> Result<(), Fail> {
    let outcome = run(rt.alloc(), BUILD, EXPORT, SOUND)?;
    assert_eq!(rt; outcome.said.as_str(), BUILT_EXPORT);
    assert_eq!(rt; outcome.written.len(), ONE_PAGE);
    Ok(())
}

#[test]
fn builds_strips(rt: HostRuntime) -> Result<(), Fail> {
    let alloc = rt.alloc();
    // triangles; groups, clusters, pages, root pages and source triangles; bytes of the file
    let cases = [
        (128, "built 1 1 1 1 128", ONE_PAGE),
        (129, "built 1 2 1 1 129", 65_692),
        (2_048, "built 2 16 2 2 2048", 131_416),
    ];
    for (count, said, bytes) in cases {
        let outcome = run(alloc, BUILD, &strip(alloc, count)?, SOUND)?;
        assert_eq!(rt; outcome.said.as_str(), said, "{count} triangles");
        assert_eq!(rt; outcome.written.len(), bytes, "{count} triangles");
    }
    Ok(())
}

#[test]
fn builds_the_same_file_again(rt: HostRuntime) -> Result<(), Fail> {
    let alloc = rt.alloc();
    let text = strip(alloc, 129)?;
    let first = run(alloc, BUILD, &text, SOUND)?;
    let again = run(alloc, BUILD, &text, SOUND)?;
    assert!(rt; first.written == again.written);
    Ok(())
}

#[test]
fn the_first_fault_is_that_of_drawing(rt: HostRuntime) -> Result<(), Fail> {
    let cases = [
        ("no bytes", "", "no triangle"),
        ("no third number", "v 1 2", "line 1: bad number 3"),
        ("two corners", "v 0 0 0\nf 1 1\nv 1", "line 2: short face"),
    ];
    for (name, text, fault) in cases {
        let outcome = run(rt.alloc(), BUILD, text, SOUND)?;
        assert_eq!(rt; outcome.said.as_str(), fault, "{name}");
        assert!(rt; outcome.written.is_empty(), "{name}");
    }
    Ok(())
}

#[test]
fn each_read_of_a_build_fails(rt: HostRuntime) -> Result<(), Fail> {
    for failing_read in 1..=EXPORT.len() as u64 + 1 {
        let calls = Calls {
            most: 1,
            failing_read,
            failing_write: 0,
        };
        let outcome = run(rt.alloc(), BUILD, EXPORT, calls)?;
        assert_eq!(rt;
            outcome.said.as_str(),
            "input could not be read",
            "read {failing_read}"
        );
        assert!(rt; outcome.written.is_empty(), "read {failing_read}");
    }
    Ok(())
}

/// At 4,096 bytes a call the file takes 17 calls or more.
#[test]
fn each_write_of_a_build_fails(rt: HostRuntime) -> Result<(), Fail> {
    let alloc = rt.alloc();
    let whole = run(alloc, BUILD, EXPORT, SOUND)?;
    for failing_write in 1..=17 {
        let calls = Calls {
            most: 4_096,
            failing_read: 0,
            failing_write,
        };
        let outcome = run(alloc, BUILD, EXPORT, calls)?;
        assert_eq!(rt;
            outcome.said.as_str(),
            "output could not be written",
            "write {failing_write}"
        );
        assert!(rt;
            whole.written.starts_with(&outcome.written),
            "write {failing_write}"
        );
    }
    Ok(())
}

#[test]
fn a_second_write_of_64_bytes_fails(rt: HostRuntime) -> Result<(), Fail> {
    let alloc = rt.alloc();
    let calls = Calls {
        most: 64,
        failing_read: 0,
        failing_write: 2,
    };
    let whole = run(alloc, BUILD, EXPORT, SOUND)?;
    let outcome = run(alloc, BUILD, EXPORT, calls)?;
    assert_eq!(rt; outcome.said.as_str(), "output could not be written");
    assert!(rt; !outcome.written.is_empty());
    assert!(rt; outcome.written.len() <= 64);
    assert!(rt; whole.written.starts_with(&outcome.written));
    Ok(())
}

// To be run with each allocation refused in turn: a refusal comes as `Memory`, with nothing written.
#[test]
fn builds_or_finds_no_memory(rt: HostRuntime) -> Result<(), Fail> {
    if let Ok(outcome) = run(rt.alloc(), BUILD, EXPORT, SOUND) {
        if outcome.said.as_str() == "out of memory" {
            assert!(rt; outcome.written.is_empty());
        } else {
            assert_eq!(rt; outcome.said.as_str(), BUILT_EXPORT);
            assert_eq!(rt; outcome.written.len(), ONE_PAGE);
        }
    }
    Ok(())
}
