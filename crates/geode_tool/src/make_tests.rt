use crate::tests::{Calls, SOUND, run};
use std::test::Fail;

/// The words that ask for the box of one cell with number 0.
const MAKE: &[&str] = &["make", "1", "0"];

/// The text of that box.
const BOX: &str = "v 0 0 0\nv 0 0 2048\nv 0 2048 0\nv 0 2048 2048\nv 2048 0 0\nv 2048 0 2048\n\
    v 2048 2048 0\nv 2048 2048 2048\n\
    f 1 2 4 3\nf 5 7 8 6\nf 1 5 6 2\nf 3 4 8 7\nf 1 3 7 5\nf 2 6 8 4\n";

#[test]
fn makes_a_box(rt: HostRuntime) -> Result<(), Fail> {
    let outcome = run(rt.alloc(), MAKE, "", SOUND).map_err(|_| "memory")?;
    assert_eq!(rt; outcome.said.as_str(), "made");
    assert_eq!(rt; outcome.written.as_slice(), BOX.as_bytes());
    Ok(())
}

/// A source whose first read fails: `make` reads nothing.
#[test]
fn makes_a_box_without_a_read(rt: HostRuntime) -> Result<(), Fail> {
    let calls = Calls {
        failing_read: 1,
        ..SOUND
    };
    let outcome = run(rt.alloc(), MAKE, "v", calls).map_err(|_| "memory")?;
    assert_eq!(rt; outcome.said.as_str(), "made");
    assert_eq!(rt; outcome.written.as_slice(), BOX.as_bytes());
    Ok(())
}
