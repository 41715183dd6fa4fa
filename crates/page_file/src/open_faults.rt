ghost use Rattle.std.specs.Prelude.{◌≡◌};
ghost use Rattle.page_file.specs.declared.open_faults.OpenFault.TheVariants as faults;

use geom_core::{Digest32, Memory};

/// Why a page file wasn't opened: the first fault in the order of the reads. The header is read first, then the
/// directory, then each page; each is judged before the next is read. `PageFault`, `Truncated` and `Rule` come at several
/// of these steps, so the order of the variants is not the order of precedence.
#[derive(Clone, Copy, Debug, PartialEq, Eq)]
pub enum OpenFault {
    /// The file doesn't begin with `GEOPAGES`.
    Magic {
        /// The file's first eight bytes.
        found: [u8; 8],
    },
    /// The file's version is not the one that is read.
    Version {
        /// The file's version.
        found: u32,
    },
    /// The file ends before the end of the header, of the directory, or of a page that was asked for.
    Truncated {
        /// The number of bytes of the file.
        at: u64,
    },
    /// The digest of the version, the counts and the directory is not the one in the header.
    DirectoryDigest {
        /// The digest in the header.
        stated: Digest32,
        /// The digest of the bytes; it differs.
        found: Digest32,
    },
    /// A record of the directory breaks a rule of the grammar.
    DirectoryBad {
        /// The least rule that the record breaks: 1 to 7.
        rule: u8,
        /// The record's place, in bytes from the directory's start.
        offset: u32,
    },
    /// A rule of the counts or of the heads is broken; this is the first break.
    Rule {
        /// The rule's number: 0 for the counts, 1 to 5 for the heads.
        number: u8,
        /// For rule 0 the count: 0 groups, 1 clusters, 2 pages, 3 root pages, 4 source triangles. For the others the
        /// index that the heads' check answers.
        index: u32,
    },
    /// The digest of a page's bytes is not the one in the directory.
    PageDigest {
        /// The page's number.
        page: u32,
        /// The digest in the directory.
        stated: Digest32,
        /// The digest of the bytes; it differs.
        found: Digest32,
    },
    /// A page breaks a rule of the grammar.
    PageBad {
        /// The page's number.
        page: u32,
        /// The rule: 1 to 4.
        rule: u8,
        /// The place of what breaks it, in bytes from the page's start.
        offset: u32,
    },
    /// A read failed.
    PageFault,
    /// Out of memory.
    Memory,
}

impl From<Memory> for OpenFault {
    ghost from_gives = { λ shortage fault. fault ≡ faults.Memory };

    fn from(_shortage: Memory) -> OpenFault {
        OpenFault::Memory
    }
}
