/// A SHA-256 digest (FIPS 180-4).
#[derive(Clone, Copy, Debug, PartialEq, Eq)]
pub struct Digest32 {
    /// The digest's bytes, in the order in which they are printed.
    pub bytes: [u8; 32],
}
