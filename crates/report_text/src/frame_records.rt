use geom_core::{Digest32, Nums, Words};

/// What a report says of one frame.
#[derive(Debug, Drop)]
pub struct FrameRecord {
    /// The frame's number, from 0.
    pub frame: u32,
    /// The number of the journal's entries up to the frame's last Pin, that entry included.
    pub at: u64,
    /// The pages that were resident after these entries, ascending.
    pub resident: Nums,
    /// The pages that the frame needed and that were not resident then, ascending.
    pub missing: Nums,
    /// The number of nodes of the tree of boxes that were reached.
    pub nodes: u32,
    /// The number of words of the picture that are not 0: the pixels that some triangle covers.
    pub lit: u32,
    /// The SHA-256 digest of the picture's words, in the order of their pixels, eight bytes each, the most
    /// significant byte first.
    pub digest: Digest32,
    /// The numbers of the clusters that are drawn, ascending.
    pub cut: Nums,
    /// The picture, if the frame is printed.
    pub rows: Option<PictureRows>,
}

/// The picture of a printed frame.
#[derive(Debug, Drop)]
pub struct PictureRows {
    /// The words of the pixels, row by row from the top down.
    pub words: Words,
    /// The number of words in a row, 1 to `MAX_SIDE`; it divides the number of words.
    pub width: u32,
}
