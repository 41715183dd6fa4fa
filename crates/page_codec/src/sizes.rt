//! The sizes of the parts of a page file, in bytes, and its fixed numbers.

/// The version of the page file format that is read and written.
pub const VERSION: u32 = 1;

/// Bytes of a page file before the directory.
pub const HEADER_BYTES: u32 = 64;

/// Bytes of the header before the directory's digest: the magic, the version and the counts.
pub const COUNTS_END: u32 = 32;

/// Bytes of a group in the directory: `GROUP_NUMBERS` numbers of four bytes.
pub const GROUP_BYTES: u32 = 44;

/// Bytes of a cluster in the directory: its maker and the number of its triangles.
pub const CLUSTER_BYTES: u32 = 8;

/// Bytes of a SHA-256 digest.
pub const DIGEST_BYTES: u32 = 32;

/// What the directory has in the place of a leaf's maker.
pub const NO_MAKER: u32 = 4_294_967_295;
