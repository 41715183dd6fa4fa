use crate::tests::{Change, PAGE_0, changed};
use crate::{OpenFault, VerifyFault, verify_pages};
use page_sources::{MemoryPages, PageSource};
use std::alloc::Global;
use std::process::Abort;
use std::test::Fail;

// Where in the pages' bytes a page begins.
const PAGE: usize = 65_536;

// Bytes of a triangle: nine numbers of its corners, then its source.
const TRIANGLE: usize = 40;

// What verifying comes to.
#[derive(Clone, Copy)]
enum Want {
    // The counts of the two squares.
    Sound,
    Fault(OpenFault),
    PageDigest,
    Broken(u8, u32),
}

fn answers<P: PageSource>(alloc: Global, src: &mut P, want: Want) -> bool {
    let answer = verify_pages(alloc, src);
    match want {
        Want::Sound => matches!(answer, Ok(counts) if counts == crate::tests::COUNTS),
        Want::Fault(wanted) => matches!(answer, Err(VerifyFault::Open(fault)) if fault == wanted),
        Want::PageDigest => matches!(
            answer,
            Err(VerifyFault::Open(OpenFault::PageDigest { page: 0, .. }))
        ),
        Want::Broken(number, place) => {
            matches!(answer, Err(VerifyFault::Broken { rule, index }) if rule == number && index == place)
        }
    }
}

fn truncated(at: u64) -> Want {
    Want::Fault(OpenFault::Truncated { at })
}

// Page 0 has cluster 0, (B, C, A) 1 and (C, D, A) 2, and cluster 1; page 1 has cluster 2 and page 2 cluster 3, whose
// last triangle has source 7.
#[test]
fn verifies_changed_files(rt: HostRuntime) -> Result<(), Fail> {
    let alloc = rt.alloc();
    let version = OpenFault::Version { found: 3 };
    let tail = OpenFault::PageBad {
        page: 2,
        rule: 4,
        offset: 65_535,
    };
    let rows: [(&str, Change, Want); 10] = [
        ("unchanged", Change::Nothing, Want::Sound),
        ("another version", Change::Byte(8, 3), Want::Fault(version)),
        ("half a header", Change::Cut(40), truncated(40)),
        ("half a directory", Change::Cut(100), truncated(100)),
        ("half a page", Change::Cut(196_900), truncated(196_900)),
        (
            "a changed root page",
            Change::Byte(PAGE_0, 1),
            Want::PageDigest,
        ),
        (
            "a tail",
            Change::Page(2 * PAGE + 65_535, 1),
            Want::Fault(tail),
        ),
        (
            "source 7 set to 6",
            Change::Page(2 * PAGE + 3 * TRIANGLE + 36, 6),
            Want::Broken(7, 6),
        ),
        (
            "a corner of cluster 0",
            Change::Page(0, 9),
            Want::Broken(6, 1),
        ),
        ("an error of 3", Change::Number(44, 3), Want::Broken(8, 0)),
    ];
    for (name, change, want) in rows {
        let file = changed(&rt, alloc, change)?;
        let mut source = MemoryPages::of(file.clone()?, Vec::new(alloc));
        assert!(rt; answers(alloc, &mut source, want), "{name}");
        let again = MemoryPages::of(file, Vec::new(alloc));
        let mut boxed: Box<dyn PageSource + Send> = Box::new(alloc, again)?;
        assert!(rt; answers(alloc, &mut boxed, want), "{name}, in a box");
    }
    Ok(())
}

// The reads are numbered from 1: the header, the directory, pages 0 to 2.
#[test]
fn each_read_of_verifying_may_fail(rt: HostRuntime) -> Result<(), Fail> {
    let alloc = rt.alloc();
    for failing in 1..7u64 {
        let want = match failing {
            6 => Want::Sound,
            _ => Want::Fault(OpenFault::PageFault),
        };
        let file = changed(&rt, alloc, Change::Nothing)?;
        let mut source = MemoryPages::of(file, vec![in alloc; failing]?);
        assert!(rt; answers(alloc, &mut source, want), "{failing}");
    }
    Ok(())
}
