// Candidates of a sheet, and what they make of a point (document 01, 'Distance'): every operation once,
// in 01's order.
ghost use Rattle.std.specs.Prelude.{◌≡◌};
ghost use Rattle.sheet.specs.Distance.{projection_of, squared_residual, model_of, model_numbers};

use crate::marks::Point;

// A candidate: the homography from the sheet to pixels, row by row.
#[derive(Clone, Copy)]
pub struct Model {
    pub h0: f64,
    pub h1: f64,
    pub h2: f64,
    pub h3: f64,
    pub h4: f64,
    pub h5: f64,
    pub h6: f64,
    pub h7: f64,
    pub h8: f64,
}

// Row by row.
impl From<[f64; 9]> for Model {
    ghost from_gives = { λ numbers h. h ≡ model_of numbers };

    fn from(numbers: [f64; 9]) -> Model {
        let [h0, h1, h2, h3, h4, h5, h6, h7, h8] = numbers;
        Model {
            h0,
            h1,
            h2,
            h3,
            h4,
            h5,
            h6,
            h7,
            h8,
        }
    }
}

impl Model {
    // Row by row.
    #[tactic(auto, unfolding(crate::specs::Distance::model_numbers))]
    pub fn numbers(self) -> [f64; 9]
        ensures { result ≡ model_numbers self }
    {
        [
            self.h0, self.h1, self.h2, self.h3, self.h4, self.h5, self.h6, self.h7, self.h8,
        ]
    }
}

// What a homography makes of a point: the divisor s, and the point that it maps to.
#[derive(Clone, Copy)]
pub struct Projection {
    pub s: f64,
    pub at: Point,
}

// Where a point of the sheet is mapped to. It says something only where s > 0.
#[tactic(auto, unfolding(crate::specs::Distance::projection_of))]
pub fn project(h: Model, p: Point) -> Projection
    ensures { result ≡ projection_of h p }
{
    let s = h.h6 * p.x + h.h7 * p.y + h.h8;
    let at = Point {
        x: (h.h0 * p.x + h.h1 * p.y + h.h2) / s,
        y: (h.h3 * p.x + h.h4 * p.y + h.h5) / s,
    };
    Projection { s, at }
}

// How far a mapped point is from a mark's pixel, squared, by the row ratio.
#[tactic(auto, unfolding(crate::specs::Distance::squared_residual))]
pub fn squared_residual(to: Point, pixel: Point, ratio: f64) -> f64
    ensures { result ≡ squared_residual ratio to pixel }
{
    numbers::squared_off(ratio, to.x - pixel.x, to.y - pixel.y)
}

// The measuring of a sheet's marks: by nothing else than the candidate and the ratio.
#[derive(Clone, Copy)]
pub struct Sheet;
