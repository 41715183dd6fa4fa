use crate::patches::patch;
use dag_core::Counts;
use geom_core::Memory;
use page_codec::{Refused, decode_directory};
use std::alloc::Global;
use std::test::Fail;

/// The directory of the two squares: groups, clusters, digests of the pages.
const DIRECTORY: [&str; 10] = [
    "0000000001000000000000000000000000000000180000000800000000000000000000000000000002000000",
    "0400000000000000000000000000000000000000080000000800000000000000010000000200000001000000",
    "0400000000000000100000000000000000000000180000000800000000000000020000000300000001000000",
    "0100000002000000",
    "0200000002000000",
    "ffffffff04000000",
    "ffffffff04000000",
    "5de01ed330b84eacc504762ce4815caab659dbb9d1c2098309b175a756306c7c",
    "4fb4358b2db991a9f41db61a50a6c849f77373c53bc65896a67edaecf2d5580b",
    "c3658e2287d94f42e2d95eaac892329122f262a6f49d1802097a0039d419c6a5",
];

/// The counts of the two squares.
pub(crate) const TWO_SQUARES: Counts = Counts {
    groups: 3,
    clusters: 4,
    pages: 3,
    roots: 1,
    sources: 8,
};

/// The bytes of the directory.
pub(crate) fn directory(alloc: Global) -> Result<Vec<u8>, Fail> {
    let mut bytes = Vec::new(alloc);
    for part in DIRECTORY {
        let part = hex::decode(alloc, part).map_err(|_| "hex")?;
        bytes.extend_from_slice(&part).map_err(|_| "memory")?;
    }
    Ok(bytes)
}

/// The first rule that the bytes break and its offset, as a text.
fn broken(alloc: Global, bytes: &[u8]) -> Result<String, Memory> {
    if bytes.len() != 260 {
        return Ok(format!(in alloc; "another length")?);
    }
    match decode_directory(alloc, bytes, &TWO_SQUARES) {
        Ok(_directory) => Ok(format!(in alloc; "none")?),
        Err(Refused::Bad(found)) => Ok(format!(in alloc; "{} {}", found.rule, found.offset)?),
        Err(Refused::Memory) => Err(Memory),
    }
}

#[test]
fn the_first_broken_rule_is_told(rt: HostRuntime) -> Result<(), Fail> {
    // the groups begin at 0, 44 and 88, the clusters at 132, 140, 148 and 156, the digests at 164
    let cases = [
        ("0 0", "none"),
        // rule 1, an error: 2^31 - 1, 2^31
        ("44 255 255 255 127", "none"),
        ("44 0 0 0 128", "1 44"),
        // rule 2, terminal: 1, 2, 2^24
        ("48 1", "none"),
        ("48 2", "2 44"),
        ("48 0 0 0 1", "2 44"),
        // rule 3, a high x: 2^20, 2^20 + 1; a low x: -2^20, -2^20 - 1
        ("64 0 0 16 0", "none"),
        ("64 1 0 16 0", "3 44"),
        ("52 0 0 240 255", "none"),
        ("52 255 255 239 255", "3 44"),
        // rule 3, a low x, y and z: equal to the high one, above it
        ("52 8", "none"),
        ("52 9", "3 44"),
        ("56 8", "none"),
        ("56 9", "3 44"),
        ("60 1, 72 1", "none"),
        ("60 1", "3 44"),
        // rule 4, a page: 2, 3
        ("76 2", "none"),
        ("76 3", "4 44"),
        // rule 5, a first member: 4, 5; a number of members: 8, 9, 0
        ("80 4", "none"),
        ("80 5", "5 44"),
        ("84 8", "none"),
        ("84 9", "5 44"),
        ("84 0", "5 44"),
        // rule 6, a maker: 0, 2, 3, 2^32 - 1, 2^32 - 2
        ("132 0", "none"),
        ("132 2", "none"),
        ("132 3", "6 132"),
        ("132 255 255 255 255", "none"),
        ("132 254 255 255 255", "6 132"),
        // rule 7, a number of triangles: 1, 0, 128, 129
        ("136 1", "none"),
        ("136 0", "7 132"),
        ("136 128", "none"),
        ("136 129", "7 132"),
        ("160 129", "7 156"),
        // two rules in one record
        ("44 0 0 0 128, 48 2", "1 44"),
        ("48 2, 52 9", "2 44"),
        ("52 9, 76 3", "3 44"),
        ("76 3, 84 0", "4 44"),
        ("132 3, 136 0", "6 132"),
        // a greater rule in an earlier record
        ("40 9, 44 0 0 0 128", "5 0"),
        ("120 3, 132 3", "4 88"),
        ("136 0, 140 3", "7 132"),
        // any digest is taken
        ("164 0, 259 0", "none"),
    ];
    for (changes, want) in cases {
        let mut bytes = directory(rt.alloc())?;
        if patch(&mut bytes, changes).is_none() {
            return Err("no changes".into());
        }
        let told = broken(rt.alloc(), &bytes).map_err(|_| "memory")?;
        assert!(rt; told.as_str() == want, "{changes}");
    }
    Ok(())
}
