/// A screen-space vertex: a position on the screen, with its depth.
#[derive(Clone, Copy, Debug, PartialEq, Eq)]
pub struct Spot {
    /// The distance from the picture's left edge, in sixteenths of a pixel; it grows to the right.
    pub x: i64,
    /// The distance from the picture's upper edge, in sixteenths of a pixel; it grows downwards.
    pub y: i64,
    /// The reversed depth, from 1 to `MAX_DEPTH`: a greater number is nearer.
    pub z: u32,
}

/// The size of a picture, in pixels, each side from 1 to `MAX_SIDE`.
#[derive(Clone, Copy, Debug, PartialEq, Eq)]
pub struct Size {
    /// The number of columns.
    pub width: u32,
    /// The number of rows.
    pub height: u32,
}
