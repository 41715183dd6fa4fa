use crate::patches::patch;
use geom_core::Memory;
use geom_core::limits::PAGE_BYTES;
use page_codec::{Refused, decode_page, digest_of, encode_page};
use std::alloc::Global;
use std::test::Fail;
use two_squares::{two_squares, two_squares_heads};

/// A page that was used before: each of its bytes is 170.
fn used_page() -> [u8; PAGE_BYTES as usize] {
    [170; PAGE_BYTES as usize]
}

/// Page `page` of the two squares, written over old bytes; no bytes if there is no such page.
fn encoded(alloc: Global, page: u32) -> Result<Vec<u8>, Memory> {
    let mut bytes = Vec::new(alloc);
    let dag = two_squares(alloc)?;
    if page < 3 {
        let mut into = used_page();
        encode_page(&dag, page, &mut into);
        bytes.extend_from_slice(&into)?;
    }
    Ok(bytes)
}

/// The digest of the bytes as a text.
fn digest_text(alloc: Global, bytes: &[u8]) -> Result<String, Memory> {
    Ok(hex::encode(alloc, digest_of(bytes).bytes)?)
}

/// The first rule that the bytes of page 1 break and its offset, as a text.
fn broken(alloc: Global, bytes: &[u8]) -> Result<String, Memory> {
    if bytes.len() != PAGE_BYTES as usize {
        return Ok(format!(in alloc; "another length")?);
    }
    let heads = two_squares_heads(alloc)?;
    match decode_page(alloc, bytes, &heads, 1) {
        Ok(_page) => Ok(format!(in alloc; "none")?),
        Err(Refused::Bad(found)) => Ok(format!(in alloc; "{} {}", found.rule, found.offset)?),
        Err(Refused::Memory) => Err(Memory),
    }
}

#[test]
fn pages_are_spelt(rt: HostRuntime) -> Result<(), Fail> {
    // each page's first triangle and the SHA-256 digest of its 65,536 bytes
    let cases = [
        (
            0,
            "08000000000000000000000008000000080000000000000000000000000000000000000001000000",
            "5de01ed330b84eacc504762ce4815caab659dbb9d1c2098309b175a756306c7c",
        ),
        (
            1,
            "00000000000000000000000008000000000000000000000004000000040000000000000000000000",
            "4fb4358b2db991a9f41db61a50a6c849f77373c53bc65896a67edaecf2d5580b",
        ),
        (
            2,
            "10000000000000000000000018000000000000000000000014000000040000000000000004000000",
            "c3658e2287d94f42e2d95eaac892329122f262a6f49d1802097a0039d419c6a5",
        ),
    ];
    for (page, triangle, digest) in cases {
        let bytes = encoded(rt.alloc(), page).map_err(|_| "memory")?;
        assert!(rt; bytes.len() == PAGE_BYTES as usize, "{page}");
        let first = hex::decode(rt.alloc(), triangle).map_err(|_| "hex")?;
        assert!(rt; bytes.starts_with(&first), "{triangle}");
        let told = digest_text(rt.alloc(), &bytes).map_err(|_| "memory")?;
        assert!(rt; told.as_str() == digest, "{told}");
    }
    Ok(())
}

#[test]
fn the_first_broken_rule_is_told(rt: HostRuntime) -> Result<(), Fail> {
    // four triangles, at 0, 40, 80 and 120; the first is (0, 0, 0), (8, 0, 0), (4, 4, 0) with source 0
    let cases = [
        ("0 0", "none"),
        // rule 1, the first x: 2^31 - 1, 2^20, 2^20 + 1, -2^20, -2^20 - 1; the last z: 2^20 + 1
        ("0 255 255 255 127", "1 0"),
        ("0 0 0 16 0", "none"),
        ("0 1 0 16 0", "1 0"),
        ("0 0 0 240 255", "none"),
        ("0 255 255 239 255", "1 0"),
        ("152 1 0 16 0", "1 120"),
        // rule 2: the first corner and the second, the first and the third, the second and the third
        ("12 0", "2 0"),
        ("24 0, 28 0", "2 0"),
        ("24 8, 28 0", "2 0"),
        // rule 3, the last source: 7, 8
        ("156 7", "none"),
        ("156 8", "3 120"),
        // rule 4: the last byte, the first one of the tail, two of them
        ("65535 1", "4 65535"),
        ("160 1", "4 160"),
        ("65535 1, 300 1", "4 300"),
        // two rules in one triangle
        ("8 1 0 16 0, 20 1 0 16 0, 12 0", "1 0"),
        ("12 0, 36 8", "2 0"),
        // a greater rule in an earlier triangle, and any triangle before the tail
        ("36 8, 40 255 255 255 127", "3 0"),
        ("160 1, 156 8", "3 120"),
    ];
    let page = encoded(rt.alloc(), 1).map_err(|_| "memory")?;
    for (changes, want) in cases {
        let mut bytes = Vec::new(rt.alloc());
        bytes.extend_from_slice(&page).map_err(|_| "memory")?;
        if patch(&mut bytes, changes).is_none() {
            return Err("no changes".into());
        }
        let told = broken(rt.alloc(), &bytes).map_err(|_| "memory")?;
        assert!(rt; told.as_str() == want, "{changes}");
    }
    Ok(())
}
