use crate::points::Pt;

/// What decides the level of detail (LOD): the camera's position, its focal length and the error tolerance.
#[derive(Clone, Copy, Debug, PartialEq, Eq)]
pub struct Lens {
    /// The camera's position, each coordinate at most `MAX_EYE` from 0.
    pub eye: Pt,
    /// The focal length in pixels at distance 1, from 1 to `MAX_FOCAL`.
    pub focal: u32,
    /// The screen-space error tolerance in sixteenths of a pixel, from 0 to `MAX_TOLERANCE`.
    pub tolerance: u32,
}
