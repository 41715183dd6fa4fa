use crate::tests::said;
use crate::{geode, places};
use dag_core::Counts;
use page_codec::{
    Digests, Directory, Header, digest_of, directory_digest, encode_directory, encode_header,
    encode_page,
};
use page_sources::{MemoryPages, PageSource};
use span_io::{MemorySink, MemorySource};
use std::alloc::Global;
use std::process::Abort;
use std::test::Fail;
use two_squares::{two_squares, two_squares_heads};

const VERIFY: &[&str] = &["verify", "squares.geo"];

const COUNTS: Counts = Counts {
    groups: 3,
    clusters: 4,
    pages: 3,
    roots: 1,
    sources: 8,
};

/// Returns the page file of the two squares, with this version in its header.
fn squares_file(alloc: Global, version: u32) -> Result<Vec<u8>, Fail> {
    let dag = two_squares(alloc)?;
    let mut directory = encode_directory(
        alloc,
        &Directory {
            heads: two_squares_heads(alloc)?,
            digests: Digests::of(Vec::new(alloc)),
        },
    )?;
    let mut pages = Vec::new(alloc);
    for page in 0..3 {
        let mut text = [0; 65_536];
        encode_page(&dag, page, &mut text);
        directory.extend_from_slice(&digest_of(&text).bytes)?;
        pages.extend_from_slice(&text)?;
    }
    let header = Header {
        version,
        counts: COUNTS,
        digest: directory_digest(version, &COUNTS, &directory),
    };
    let mut file = Vec::new(alloc);
    file.extend_from_slice(&encode_header(&header))?;
    file.extend_from_slice(&directory)?;
    file.extend_from_slice(&pages)?;
    Ok(file)
}

/// Verifies the file of the first source, and compares what was said and what was written.
fn assert_verified<P: PageSource + Send>(
    rt: &impl Abort,
    alloc: Global,
    sources: &mut Vec<P>,
    said_want: &str,
    written_want: &str,
) -> Result<(), Fail> {
    // each read of the input fails: it is not read
    let failing_reads = vec![in alloc; 1u64]?;
    let mut input = MemorySource::of(Vec::new(alloc), 1, failing_reads);
    let mut out = MemorySink::of(alloc, 65_536, 7, Vec::new(alloc))?;
    let answer = geode(alloc, VERIFY, &mut input, sources, &mut out);
    assert_eq!(rt; said(alloc, &answer)?.as_str(), said_want);
    assert_eq!(rt; out.into_bytes().as_slice(), written_want.as_bytes());
    Ok(())
}

/// The version of the file, how many of its bytes are there, the read that fails, what is said and what is written.
type Row = (u32, usize, u64, &'static str, &'static str);

const ROWS: [Row; 6] = [
    (
        1,
        196_932,
        0,
        "verified 3 4 3 1 8",
        "sound groups 3 clusters 4 pages 3 roots 1 sources 8\n",
    ),
    (1, 196_932, 2, "page file could not be read", ""),
    (3, 196_932, 0, "page file: version 3", ""),
    (1, 40, 0, "page file: truncated at 40", ""),
    (1, 100, 0, "page file: truncated at 100", ""),
    (1, 196_900, 0, "page file: truncated at 196900", ""),
];

#[test]
fn files_are_verified_from_memory(rt: HostRuntime) -> Result<(), Fail> {
    let alloc = rt.alloc();
    for (version, len, failing, said_want, written_want) in ROWS {
        let mut file = squares_file(alloc, version)?;
        file.truncate(len);
        let mut sources = Vec::new(alloc);
        sources.push(MemoryPages::of(file, vec![in alloc; failing]?))?;
        assert_verified(&rt, alloc, &mut sources, said_want, written_want)?;
        assert_eq!(rt; sources.len(), 1);
    }
    Ok(())
}

#[test]
fn files_are_verified_from_a_box(rt: HostRuntime) -> Result<(), Fail> {
    let alloc = rt.alloc();
    for (version, len, failing, said_want, written_want) in ROWS {
        let mut file = squares_file(alloc, version)?;
        file.truncate(len);
        let source = MemoryPages::of(file, vec![in alloc; failing]?);
        let boxed: Box<dyn PageSource + Send> = Box::new(alloc, source)?;
        let mut sources = Vec::new(alloc);
        sources.push(boxed)?;
        assert_verified(&rt, alloc, &mut sources, said_want, written_want)?;
    }
    Ok(())
}

#[test]
fn a_file_needs_a_source(rt: HostRuntime) -> Result<(), Fail> {
    let mut sources: Vec<MemoryPages> = Vec::new(rt.alloc());
    let said_want = "1 sources needed, 0 given";
    assert_verified(&rt, rt.alloc(), &mut sources, said_want, "")
}

/// Returns the file that the words name, or `-`, and how many page sources are needed; or the fault.
fn named(alloc: Global, words: &[&str]) -> Result<String, Fail> {
    let text = match places(alloc, words) {
        Ok(wanted) => {
            let count = wanted.count;
            match &wanted.file {
                Some(file) => format!(in alloc; "{file} {count}")?,
                None => format!(in alloc; "- {count}")?,
            }
        }
        Err(fault) => format!(in alloc; "{fault}")?,
    };
    Ok(text)
}

#[test]
fn words_name_a_file(rt: HostRuntime) -> Result<(), Fail> {
    let alloc = rt.alloc();
    assert_eq!(rt; named(alloc, VERIFY)?.as_str(), "squares.geo 1");
    assert_eq!(rt; named(alloc, &["verify", ""])?.as_str(), " 1");
    assert_eq!(rt; named(alloc, &["audit"])?.as_str(), "- 0");
    assert_eq!(rt; named(alloc, &["make", "1", "0"])?.as_str(), "- 0");
    assert_eq!(rt; named(alloc, &["verify"])?.as_str(), "usage: line");
    assert_eq!(rt;
        named(alloc, &["verify", "a", "b"])?.as_str(),
        "usage: line"
    );
    Ok(())
}
