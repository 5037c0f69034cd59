// Marks, candidates and cameras of a standing form (document 02, order 5): what a candidate and a camera
// make of a point, and the distance of a mark under them.
#![tactic(auto)]

mod marks;
mod measuring;
mod model;

pub use marks::{Mark, Pixel, Point, Points, mark_at, pixel_of, point_of};
pub use measuring::distance;
pub use model::{Camera, Model, Row, project_point, squared_residual, transform_point, turn};
