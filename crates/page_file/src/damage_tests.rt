use crate::tests::{Change, PAGE_0, PAGE_1, Want, answers, changed, truncated};
use crate::{OpenFault, open_pages};
use page_sources::MemoryPages;
use std::alloc::Global;
use std::test::Fail;

// Where the counts of the header end.
const COUNTS_END: usize = 32;

// Whether the answer for the two squares' file with one changed byte, at this place, names a part that has the byte.
fn is_named_at(at: usize, fault: OpenFault) -> bool {
    match fault {
        OpenFault::Magic { .. } => at < 8,
        OpenFault::Version { .. } => 8 <= at && at < 12,
        OpenFault::Rule { number: 0, .. } => 12 <= at && at < COUNTS_END,
        OpenFault::Truncated { .. } => 12 <= at && at < COUNTS_END,
        OpenFault::DirectoryDigest { .. } => 12 <= at && at < PAGE_0,
        OpenFault::PageDigest { page: 0, .. } => PAGE_0 <= at && at < PAGE_1,
        OpenFault::Rule { .. }
        | OpenFault::DirectoryBad { .. }
        | OpenFault::PageDigest { .. }
        | OpenFault::PageBad { .. }
        | OpenFault::PageFault
        | OpenFault::Memory => false,
    }
}

// Whether opening the file's first `len` bytes answers what is wanted.
fn answers_prefix(alloc: Global, file: &[u8], len: usize, want: Want) -> Result<bool, Fail> {
    let bytes = file[..len.min(file.len())].to_vec(alloc)?;
    let mut source = MemoryPages::of(bytes, Vec::new(alloc));
    Ok(answers(alloc, &mut source, want))
}

// Each prefix that lacks a byte of page 0 is truncated at its own length: each of less than 400 bytes, then each 512th,
// and the longest one. So are 63 bytes with another magic.
#[test]
fn prefixes_are_truncated(rt: HostRuntime) -> Result<(), Fail> {
    let alloc = rt.alloc();
    let file = changed(&rt, alloc, Change::Nothing)?;
    for len in 0..400 {
        assert!(rt;
            answers_prefix(alloc, &file, len, truncated(len as u64))?,
            "{len}"
        );
    }
    for step in 0..128 {
        let len = 400 + 512 * step;
        assert!(rt;
            answers_prefix(alloc, &file, len, truncated(len as u64))?,
            "{len}"
        );
    }
    assert!(rt; answers_prefix(alloc, &file, PAGE_1 - 1, truncated(65_859))?);
    let other = vec![in alloc; 70; 63]?;
    assert!(rt; answers_prefix(alloc, &other, 63, truncated(63))?);
    Ok(())
}

// Each prefix with all of page 0 opens; each 8,192nd is tried.
#[test]
fn bytes_after_the_root_page_change_nothing(rt: HostRuntime) -> Result<(), Fail> {
    let alloc = rt.alloc();
    let file = changed(&rt, alloc, Change::Nothing)?;
    for step in 0..17 {
        let len = PAGE_1 + 8_192 * step;
        assert!(rt; answers_prefix(alloc, &file, len, Want::Opened)?, "{len}");
    }
    Ok(())
}

// Each of the first 400 bytes is replaced by its complement, in the file up to page 1.
#[test]
fn changed_bytes_are_named(rt: HostRuntime) -> Result<(), Fail> {
    let alloc = rt.alloc();
    let file = changed(&rt, alloc, Change::Cut(PAGE_1))?;
    for at in 0..400 {
        let mut bytes = file.clone()?;
        assert!(rt; at < bytes.len());
        bytes[at] = !bytes[at];
        let mut source = MemoryPages::of(bytes, Vec::new(alloc));
        let answer = open_pages(alloc, &mut source);
        assert!(rt;
            matches!(answer, Err(fault) if is_named_at(at, fault)),
            "{at}"
        );
    }
    Ok(())
}
