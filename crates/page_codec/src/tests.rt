use crate::{
    Break, Directory, Header, Page, Refused, decode_directory, decode_header, digest_of,
    encode_directory, encode_header,
};
use dag_core::Counts;
use geom_core::Digest32;
use std::alloc::Global;
use std::test::Fail;

fn is_shared<T: Send + Sync>() -> bool {
    true
}

#[test]
fn decoded_values_are_shared(rt: HostRuntime) -> Result<(), Fail> {
    assert!(rt; is_shared::<Page>());
    assert!(rt; is_shared::<Directory>());
    Ok(())
}

/// The digest of "abc" in the standard's example (FIPS 180-4).
#[test]
fn digests_are_sha_256(rt: HostRuntime) -> Result<(), Fail> {
    let digest = digest_of(b"abc");
    assert_eq!(rt; digest.bytes[0], 0xba);
    assert_eq!(rt; digest.bytes[31], 0xad);
    Ok(())
}

#[test]
fn header_of_the_two_squares(rt: HostRuntime) -> Result<(), Fail> {
    let header = Header {
        version: 1,
        counts: two_squares_counts(),
        digest: Digest32 { bytes: [7; 32] },
    };
    let bytes = encode_header(&header);
    assert_eq!(rt; decode_header(&bytes), header);
    Ok(())
}

fn two_squares_counts() -> Counts {
    Counts {
        groups: 3,
        clusters: 4,
        pages: 3,
        roots: 1,
        sources: 8,
    }
}
