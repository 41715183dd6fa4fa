//! Pinhole cameras over whole numbers: the view-space point and the screen position of a mesh point.
//!
//! [`Camera::screen`] is exactly `geom_core`'s definition of a spot. Drawing takes the two steps apart,
//! [`Camera::to_view`] and [`Camera::project`], with a test between them that finds triangles beside the
//! picture without a division. No call takes memory.
#![tactic(auto)]

mod cameras;
mod number_ranges;
mod projections;
mod rotation;
mod view_points;

pub use cameras::{BadCamera, Camera};
pub use number_ranges::{CAMERA_RANGES, NumberRange, first_out_of_range};
pub use view_points::ViewPoint;
