// Candidates and cameras of a standing form, and what they make of a point (document 02, order 5): every
// operation once, in the order's order.
ghost use Rattle.std.specs.Prelude.{◌≡◌};
ghost use Rattle.form.specs.Distance.{turned_by, turned, pixel_under, squared_residual, model_of, model_numbers, camera_of, camera_numbers};

use crate::marks::{Pixel, Point};

// One row of a candidate: what it multiplies x, y and z by, and what it adds.
#[derive(Clone, Copy)]
pub struct Row {
    pub r0: f64,
    pub r1: f64,
    pub r2: f64,
    pub t: f64,
}

// A candidate, by the coordinate that each row gives: in the terms of the field, the matrix [R|t] of the
// pose, which takes a point of the form to the camera.
#[derive(Clone, Copy)]
pub struct Model {
    pub x: Row,
    pub y: Row,
    pub z: Row,
}

// Row by row.
impl From<[f64; 12]> for Model {
    ghost from_gives = { λ numbers h. h ≡ model_of numbers };

    fn from(numbers: [f64; 12]) -> Model {
        let [x0, x1, x2, xt, y0, y1, y2, yt, z0, z1, z2, zt] = numbers;
        Model {
            x: Row {
                r0: x0,
                r1: x1,
                r2: x2,
                t: xt,
            },
            y: Row {
                r0: y0,
                r1: y1,
                r2: y2,
                t: yt,
            },
            z: Row {
                r0: z0,
                r1: z1,
                r2: z2,
                t: zt,
            },
        }
    }
}

impl Model {
    // Row by row.
    #[tactic(auto, unfolding(crate::specs::Distance::model_numbers))]
    pub fn numbers(self) -> [f64; 12]
        ensures { result ≡ model_numbers self }
    {
        let Model { x, y, z } = self;
        [
            x.r0, x.r1, x.r2, x.t, y.r0, y.r1, y.r2, y.t, z.r0, z.r1, z.r2, z.t,
        ]
    }
}

// A camera, by which marks are measured: in the terms of the field, its intrinsics without skew (the
// source's `FxFyCxCy`), the focal lengths and the principal point.
#[derive(Clone, Copy)]
pub struct Camera {
    pub fx: f64,
    pub fy: f64,
    pub cx: f64,
    pub cy: f64,
}

impl From<[f64; 4]> for Camera {
    ghost from_gives = { λ numbers c. c ≡ camera_of numbers };

    fn from(numbers: [f64; 4]) -> Camera {
        let [fx, fy, cx, cy] = numbers;
        Camera { fx, fy, cx, cy }
    }
}

impl Camera {
    #[tactic(auto, unfolding(crate::specs::Distance::camera_numbers))]
    pub fn numbers(self) -> [f64; 4]
        ensures { result ≡ camera_numbers self }
    {
        [self.fx, self.fy, self.cx, self.cy]
    }
}

// What a row makes of a point.
#[tactic(auto, unfolding(crate::specs::Distance::turned_by))]
pub fn turn(row: Row, p: Point) -> f64
    ensures { result ≡ turned_by row p }
{
    row.r0 * p.x + row.r1 * p.y + row.r2 * p.z + row.t
}

// The point of the form as the camera has it: X, Y and Z, each by its own row.
#[tactic(auto, unfolding(crate::specs::Distance::turned))]
pub fn transform_point(h: Model, p: Point) -> Point
    ensures { result ≡ turned h p }
{
    Point {
        x: turn(h.x, p),
        y: turn(h.y, p),
        z: turn(h.z, p),
    }
}

// The pixel where the camera sees that point. It says something only where Z > 0.
#[tactic(auto, unfolding(crate::specs::Distance::pixel_under))]
pub fn project_point(camera: Camera, p: Point) -> Pixel
    ensures { result ≡ pixel_under camera p }
{
    Pixel {
        u: camera.fx * (p.x / p.z) + camera.cx,
        v: camera.fy * (p.y / p.z) + camera.cy,
    }
}

// How far the pixel of a point is from a mark's, squared, by the row ratio.
#[tactic(auto, unfolding(crate::specs::Distance::squared_residual))]
pub fn squared_residual(to: Pixel, pixel: Pixel, ratio: f64) -> f64
    ensures { result ≡ squared_residual ratio to pixel }
{
    numbers::squared_off(ratio, to.u - pixel.u, to.v - pixel.v)
}
