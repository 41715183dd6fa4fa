use crate::directory_rows::{TWO_SQUARES, directory};
use page_codec::{
    Header, decode_directory, decode_header, directory_digest, encode_directory, encode_header,
    page_at,
};
use std::test::Fail;
use two_squares::two_squares_heads;

/// The first 64 bytes of the file.
const HEADER: &str =
    "47454f5041474553010000000300000004000000030000000100000008000000ebdb05db4982979b5be5d35bb1bb355d3a9848cdd7f8bd0919c6fe0053ba01ed";

#[test]
fn the_header_is_spelt(rt: HostRuntime) -> Result<(), Fail> {
    let directory = directory(rt.alloc())?;
    let header = Header {
        version: 1,
        counts: TWO_SQUARES,
        digest: directory_digest(1, &TWO_SQUARES, &directory),
    };
    let bytes = encode_header(&header);
    let told = hex::encode(rt.alloc(), bytes).map_err(|_| "memory")?;
    assert!(rt; told.as_str() == HEADER, "{told}");
    assert!(rt; decode_header(&bytes) == header);
    Ok(())
}

#[test]
fn pages_begin_after_the_directory(rt: HostRuntime) -> Result<(), Fail> {
    // the place after the last page is the file's length
    let rows = [(0, 324), (1, 65_860), (2, 131_396), (3, 196_932)];
    for (page, place) in rows {
        assert!(rt; page_at(&TWO_SQUARES, page) == place, "{page}");
    }
    Ok(())
}

#[test]
fn the_directory_reads_back(rt: HostRuntime) -> Result<(), Fail> {
    let bytes = directory(rt.alloc())?;
    if bytes.len() != 260 {
        return Err("another length".into());
    }
    let Ok(found) = decode_directory(rt.alloc(), &bytes, &TWO_SQUARES) else {
        return Err("refused".into());
    };
    let heads = two_squares_heads(rt.alloc()).map_err(|_| "memory")?;
    assert!(rt; found.heads == heads);
    let again = encode_directory(rt.alloc(), &found).map_err(|_| "memory")?;
    assert!(rt; again == bytes);
    Ok(())
}
