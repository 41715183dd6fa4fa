use super::*;
use dag_core::Counts;
use page_codec::{
    Digests, Directory, Header, digest_of, directory_digest, encode_directory, encode_header,
    encode_page,
};
use page_sources::{MemoryPages, PageSource};
use std::alloc::Global;
use std::process::Abort;
use std::test::Fail;
use two_squares::{two_squares, two_squares_heads};

// Where page 0 and page 1 begin in the file of the two squares.
pub(crate) const PAGE_0: usize = 324;

pub(crate) const PAGE_1: usize = 65_860;

pub(crate) const COUNTS: Counts = Counts {
    groups: 3,
    clusters: 4,
    pages: 3,
    roots: 1,
    sources: 8,
};

// How the file is changed.
#[derive(Clone, Copy)]
pub(crate) enum Change {
    // It stays.
    Nothing,
    // It has so many bytes.
    Cut(usize),
    // A byte is changed.
    Byte(usize, u8),
    // Four bytes of the directory are a number, and the digests are made anew.
    Number(usize, u32),
    // A byte of the pages is changed, and the digests are made anew.
    Page(usize, u8),
}

// What comes of it.
#[derive(Clone, Copy)]
pub(crate) enum Want {
    Opened,
    Fault(OpenFault),
    DirectoryDigest,
    PageDigest,
}

// The groups and the clusters of the two squares, as the directory begins.
pub(crate) fn records(alloc: Global) -> Result<Vec<u8>, Fail> {
    let directory = Directory {
        heads: two_squares_heads(alloc)?,
        digests: Digests::of(Vec::new(alloc)),
    };
    Ok(encode_directory(alloc, &directory)?)
}

// The pages of the two squares.
pub(crate) fn pages(alloc: Global) -> Result<Vec<u8>, Fail> {
    let dag = two_squares(alloc)?;
    let mut pages = Vec::new(alloc);
    for page in 0..3 {
        let mut text = [0; 65_536];
        encode_page(&dag, page, &mut text);
        pages.extend_from_slice(&text)?;
    }
    Ok(pages)
}

// A file of these records and pages, with their digests.
pub(crate) fn sealed(alloc: Global, records: &[u8], pages: &[u8]) -> Result<Vec<u8>, Fail> {
    let mut directory = records.to_vec(alloc)?;
    for page in pages.chunks_exact(65_536) {
        directory.extend_from_slice(&digest_of(page).bytes)?;
    }
    let header = Header {
        version: 1,
        counts: COUNTS,
        digest: directory_digest(1, &COUNTS, &directory),
    };
    let mut file = Vec::new(alloc);
    file.extend_from_slice(&encode_header(&header))?;
    file.extend_from_slice(&directory)?;
    file.extend_from_slice(pages)?;
    Ok(file)
}

// The file of the two squares, changed.
pub(crate) fn changed(rt: &impl Abort, alloc: Global, change: Change) -> Result<Vec<u8>, Fail> {
    let mut records = records(alloc)?;
    let mut pages = pages(alloc)?;
    if let Change::Number(at, number) = change {
        assert!(rt; at < 256 && at + 4 <= records.len());
        records[at..at + 4].copy_from_slice(&number.to_le_bytes());
    }
    if let Change::Page(at, byte) = change {
        assert!(rt; at < pages.len());
        pages[at] = byte;
    }
    let mut file = sealed(alloc, &records, &pages)?;
    if let Change::Cut(len) = change {
        file.truncate(len);
    }
    if let Change::Byte(at, byte) = change {
        assert!(rt; at < file.len());
        file[at] = byte;
    }
    Ok(file)
}

// Whether the opening of the source answers what is wanted.
pub(crate) fn answers<P: PageSource>(alloc: Global, src: &mut P, want: Want) -> bool {
    let answer = open_pages(alloc, src);
    match want {
        Want::Opened => matches!(answer, Ok(opened) if opened.roots.as_slice().len() == 1),
        Want::Fault(wanted) => matches!(answer, Err(fault) if fault == wanted),
        Want::DirectoryDigest => matches!(answer, Err(OpenFault::DirectoryDigest { .. })),
        Want::PageDigest => matches!(answer, Err(OpenFault::PageDigest { page: 0, .. })),
    }
}

fn bad(rule: u8, offset: u32) -> Want {
    Want::Fault(OpenFault::DirectoryBad { rule, offset })
}

fn rule(number: u8, index: u32) -> Want {
    Want::Fault(OpenFault::Rule { number, index })
}

pub(crate) fn truncated(at: u64) -> Want {
    Want::Fault(OpenFault::Truncated { at })
}

#[test]
fn opens_changed_files(rt: HostRuntime) -> Result<(), Fail> {
    let alloc = rt.alloc();
    let magic = OpenFault::Magic {
        found: *b"FEOPAGES",
    };
    let version = OpenFault::Version { found: 3 };
    let tail = OpenFault::PageBad {
        page: 0,
        rule: 4,
        offset: 65_535,
    };
    let rows: [(&str, Change, Want); 28] = [
        ("unchanged", Change::Nothing, Want::Opened),
        ("the root page alone", Change::Cut(PAGE_1), Want::Opened),
        ("a byte less", Change::Cut(PAGE_1 - 1), truncated(65_859)),
        ("no page", Change::Cut(PAGE_0), truncated(324)),
        ("half a directory", Change::Cut(100), truncated(100)),
        ("half a header", Change::Cut(40), truncated(40)),
        ("another magic", Change::Byte(0, b'F'), Want::Fault(magic)),
        ("another version", Change::Byte(8, 3), Want::Fault(version)),
        ("no group", Change::Byte(12, 0), rule(0, 0)),
        ("no cluster", Change::Byte(16, 0), rule(0, 1)),
        ("no page stated", Change::Byte(20, 0), rule(0, 2)),
        ("four root pages", Change::Byte(24, 4), rule(0, 3)),
        ("no source", Change::Byte(28, 0), rule(0, 4)),
        (
            "a changed directory",
            Change::Byte(70, 1),
            Want::DirectoryDigest,
        ),
        (
            "a changed root page",
            Change::Byte(PAGE_0, 1),
            Want::PageDigest,
        ),
        ("an error", Change::Number(0, 1 << 31), bad(1, 0)),
        ("a terminal", Change::Number(48, 2), bad(2, 44)),
        ("a box", Change::Number(8, 25), bad(3, 0)),
        ("a page", Change::Number(120, 3), bad(4, 88)),
        ("nine members", Change::Number(128, 9), bad(5, 88)),
        ("a maker", Change::Number(140, 3), bad(6, 140)),
        ("129 triangles", Change::Number(144, 129), bad(7, 140)),
        ("members out of order", Change::Number(80, 3), rule(1, 1)),
        (
            "a cluster made by its home",
            Change::Number(132, 0),
            rule(2, 0),
        ),
        (
            "a terminal group that made one",
            Change::Number(48, 1),
            rule(3, 1),
        ),
        (
            "a box outside its home's",
            Change::Number(64, 25),
            rule(4, 0),
        ),
        ("an empty page", Change::Number(120, 1), rule(5, 2)),
        ("a tail", Change::Page(65_535, 1), Want::Fault(tail)),
    ];
    for (name, change, want) in rows {
        let file = changed(&rt, alloc, change)?;
        let mut source = MemoryPages::of(file.clone()?, Vec::new(alloc));
        assert!(rt; answers(alloc, &mut source, want), "{name}");
        let again = MemoryPages::of(file, Vec::new(alloc));
        let mut boxed: Box<dyn PageSource + Send> = Box::new(alloc, again)?;
        assert!(rt; answers(alloc, &mut boxed, want), "{name}, in a box");
    }
    Ok(())
}

// The reads are numbered from 1: the header, the directory, page 0.
#[test]
fn each_read_may_fail(rt: HostRuntime) -> Result<(), Fail> {
    let alloc = rt.alloc();
    let fault = Want::Fault(OpenFault::PageFault);
    let rows: [(&[u64], Want); 4] = [
        (&[1], fault),
        (&[2], fault),
        (&[3], fault),
        (&[4], Want::Opened),
    ];
    for (failing, want) in rows {
        let file = changed(&rt, alloc, Change::Nothing)?;
        let mut source = MemoryPages::of(file.clone()?, failing.to_vec(alloc)?);
        assert!(rt; answers(alloc, &mut source, want), "{failing:?}");
        let again = MemoryPages::of(file, failing.to_vec(alloc)?);
        let mut boxed: Box<dyn PageSource + Send> = Box::new(alloc, again)?;
        assert!(rt; answers(alloc, &mut boxed, want), "{failing:?}, in a box");
    }
    Ok(())
}

// 64 bytes that state the largest directory, of 704,643,072 bytes.
#[test]
fn a_header_alone_is_truncated(rt: HostRuntime) -> Result<(), Fail> {
    let alloc = rt.alloc();
    let header = Header {
        version: 1,
        counts: Counts {
            groups: 1 << 23,
            clusters: 1 << 23,
            pages: 1 << 23,
            roots: 1,
            sources: 1,
        },
        digest: digest_of(&[]),
    };
    let file = encode_header(&header).to_vec(alloc)?;
    let mut source = MemoryPages::of(file, Vec::new(alloc));
    assert!(rt; answers(alloc, &mut source, truncated(64)));
    assert!(rt; is_shared::<Opened>());
    Ok(())
}

fn is_shared<T: Send + Sync>() -> bool {
    true
}
