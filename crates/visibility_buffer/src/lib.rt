//! A visibility buffer (Burns and Hunt 2013): the greatest word at each pixel, and the drawing of one triangle
//! that a camera sees.
//!
//! [`draw_triangle`] draws into any [`PixelSink`](raster64::PixelSink); [`VisibilityBuffer`] is the sink that keeps
//! the greatest word of each pixel. The greatest word is that of the nearest triangle. A [`VertexCache`] keeps
//! the view-space points of corners that were drawn, so that a shared corner is mostly transformed once.
#![tactic(auto)]

mod buffers;
mod triangles;
mod vertex_caches;

pub use buffers::VisibilityBuffer;
pub use triangles::draw_triangle;
pub use vertex_caches::VertexCache;
