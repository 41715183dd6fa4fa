use crate::tests::{Calls, SOUND, run};
use std::test::Fail;

/// Two pages are loaded, the second after the page that it depends on.
const LOADED: &str = "layout 3 1 3\n\
    upper 1 0\n\
    upper 2 0 1\n\
    0 pin 0\n\
    0 settle 0 pages 0 missing 1 2\n\
    0 take 0 1 -\n\
    0 install 1 0000000000000000000000000000000000000000000000000000000000000000\n\
    0 take 0 2 -\n\
    0 install 2 0000000000000000000000000000000000000000000000000000000000000000\n";

/// The second page is taken before the page that it depends on is resident.
const TOO_SOON: &str = "layout 3 1 3\n\
    upper 1 0\n\
    upper 2 0 1\n\
    0 pin 0\n\
    0 settle 0 pages 0 missing 1 2\n\
    0 take 0 2 -\n";

/// All slots are used, and another frame wants one more page.
const CROWDED: &str = "layout 6 1 5\n\
    upper 1 0\n\
    upper 2 0 1\n\
    upper 3 0\n\
    upper 4 0\n\
    upper 5 0\n\
    0 pin 0\n\
    0 settle 0 pages 0 missing 1 2 3 4\n\
    0 take 0 1 -\n\
    0 install 1 0000000000000000000000000000000000000000000000000000000000000000\n\
    0 take 0 2 -\n\
    0 install 2 0000000000000000000000000000000000000000000000000000000000000000\n\
    0 take 0 3 -\n\
    0 install 3 0000000000000000000000000000000000000000000000000000000000000000\n\
    0 take 0 4 -\n\
    0 install 4 0000000000000000000000000000000000000000000000000000000000000000\n\
    0 pin 0\n\
    0 narrow 0 pages 2 3\n\
    0 narrow 0 pages 3\n\
    1 pin 1\n\
    1 settle 1 pages 0 missing 5\n";

/// A report of a play: the lines about a frame begin with `#`.
const REPORT: &str =
    "# frame 0 at 1 resident 0 missing - nodes 1 lit 1 sha256 0000000000000000000000000000000000000000000000000000000000000000\n\
    # cut 0\n\
    layout 1 1 1\n\
    #0 stop\n\
    0 pin 0\n\
    # 0000000000000001\n\
    0 unpin 0\n";

const AUDIT: &[&str] = &["audit"];

#[test]
fn legal_journals_are_counted(rt: HostRuntime) -> Result<(), Fail> {
    let alloc = rt.alloc();
    let last_taken = format!(in alloc; "{CROWDED}1 take 1 5 4")?;
    let cases = [
        ("a layout alone", "layout 1 1 1", "audited 0", "legal 0\n"),
        (
            "pages after their dependencies",
            LOADED,
            "audited 6",
            "legal 6\n",
        ),
        (
            "the least recently used page is evicted",
            last_taken.as_str(),
            "audited 16",
            "legal 16\n",
        ),
        ("a report", REPORT, "audited 2", "legal 2\n"),
    ];
    for (name, text, said, verdict) in cases {
        let outcome = run(alloc, AUDIT, text, SOUND)?;
        assert_eq!(rt; outcome.said.as_str(), said, "{name}");
        assert_eq!(rt; outcome.written.as_slice(), verdict.as_bytes(), "{name}");
    }
    Ok(())
}

#[test]
fn the_first_fault_is_reported(rt: HostRuntime) -> Result<(), Fail> {
    let alloc = rt.alloc();
    let used_later = format!(in alloc; "{CROWDED}1 take 1 5 2")?;
    let pinned = format!(in alloc; "{CROWDED}1 take 1 5 3")?;
    let no_victim = format!(in alloc; "{CROWDED}1 take 1 5 -")?;
    let line_8 = format!(in alloc; "{REPORT}0 pins 0")?;
    let cases = [
        ("no bytes", "", "journal line 1"),
        ("a leading zero", "layout 1 1 1\n0 pin 01", "journal line 2"),
        ("comments are lines", line_8.as_str(), "journal line 8"),
        (
            "a wrong line after a wrong entry",
            "layout 2 1 2\n0 stop\n0 stop\nstop",
            "journal line 4",
        ),
        (
            "an upper that isn't resident",
            TOO_SOON,
            "entry 2 not allowed",
        ),
        (
            "a victim that was used later",
            used_later.as_str(),
            "entry 15 not allowed",
        ),
        ("a pinned victim", pinned.as_str(), "entry 15 not allowed"),
        ("no victim", no_victim.as_str(), "entry 15 not allowed"),
        (
            "a frame that ended",
            "layout 2 1 2\n0 pin 0\n0 unpin 0\n0 pin 0\n",
            "entry 2 not allowed",
        ),
        (
            "another maker's frame",
            "layout 2 1 2\n0 pin 0\n1 unpin 0\n",
            "entry 1 not allowed",
        ),
        (
            "a second stop",
            "layout 2 1 2\n0 stop\n0 stop\n",
            "entry 1 not allowed",
        ),
        (
            "a failed load without a fault",
            "layout 2 1 2\n0 pin 0\n0 settle 0 pages 0 missing 1\n0 take 0 1 -\n0 fail 1 3 3\n",
            "entry 3 not allowed",
        ),
    ];
    for (name, text, fault) in cases {
        let outcome = run(alloc, AUDIT, text, SOUND)?;
        assert_eq!(rt; outcome.said.as_str(), fault, "{name}");
        assert!(rt; outcome.written.is_empty(), "{name}");
    }
    Ok(())
}

#[test]
fn each_read_of_an_audit_fails(rt: HostRuntime) -> Result<(), Fail> {
    let text = "layout 1 1 1\n0 stop\n";
    for failing_read in 1..=text.len() as u64 + 1 {
        let calls = Calls {
            most: 1,
            failing_read,
            failing_write: 0,
        };
        let outcome = run(rt.alloc(), AUDIT, text, calls)?;
        assert_eq!(rt;
            outcome.said.as_str(),
            "input could not be read",
            "read {failing_read}"
        );
        assert!(rt; outcome.written.is_empty(), "read {failing_read}");
    }
    Ok(())
}

// The last call is `finish`, before which the whole verdict was written.
#[test]
fn each_write_of_an_audit_fails(rt: HostRuntime) -> Result<(), Fail> {
    let verdict = b"legal 6\n";
    for failing_write in 1..=verdict.len() as u64 + 1 {
        let calls = Calls {
            most: 1,
            failing_read: 0,
            failing_write,
        };
        let outcome = run(rt.alloc(), AUDIT, LOADED, calls)?;
        assert_eq!(rt;
            outcome.said.as_str(),
            "output could not be written",
            "write {failing_write}"
        );
        assert_eq!(rt; outcome.written.len() as u64, failing_write - 1);
        assert!(rt;
            verdict.starts_with(&outcome.written),
            "write {failing_write}"
        );
    }
    Ok(())
}

// To be run with each allocation refused in turn: a refusal comes as `Memory`, with nothing written.
#[test]
fn audits_or_finds_no_memory(rt: HostRuntime) -> Result<(), Fail> {
    if let Ok(outcome) = run(rt.alloc(), AUDIT, LOADED, SOUND) {
        if outcome.said.as_str() == "out of memory" {
            assert!(rt; outcome.written.is_empty());
        } else {
            assert_eq!(rt; outcome.said.as_str(), "audited 6");
            assert_eq!(rt; outcome.written.as_slice(), b"legal 6\n".as_slice());
        }
    }
    Ok(())
}
