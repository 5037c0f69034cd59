// Marks and candidates of a sheet (document 01, 'Marks' and 'Distance'): the projection by a homography,
// and the distance of a mark under it.
#![tactic(auto)]

mod marks;
mod measuring;
mod model;

pub use marks::{Mark, Point, Points, Side, mark_at, point_of, squared_apart};
pub use measuring::distance;
pub use model::{Model, Projection, Sheet, project, squared_residual};
