// Hartley normalising of a standing form's points (document 02, order 5; `normalize_points_3d` of
// linalg.rs): the centroid goes to the origin and the mean distance from it to the root of 3.
#![tactic(auto)]

ghost use Rattle.std.specs.Prelude.{◌≡◌, ◌*◌, ◌≤◌, length};
ghost use Rattle.form.specs.Marks.{points as points_of};
ghost use Rattle.linalg_3d.specs.Normalize.{centroid_of, squared_apart, mean_distance, square_at, change_of, normalized_by, matrix_of, normalized_list, Normalizing};

use form::{Camera, Point, Points};
use linalg::{Squares, mean_root};
use rule::Refusal;

// Not among Rust's constants.
const SQRT_3: f64 = 1.7320508075688772;

// A row of a 4 by 4 matrix.
#[derive(Clone, Copy)]
pub struct Row {
    pub cells: [f64; 4],
}

// The change to normalised coordinates: subtract the centre, multiply by the scale.
#[derive(Clone, Copy)]
pub struct Change {
    pub centre: Point,
    pub scale: f64,
}

// What `normalize_points_3d` gives: the matrix of the change.
#[derive(Clone, Copy)]
pub struct Normalized {
    pub matrix: [Row; 4],
}

#[tactic(auto, unfolding(crate::specs::Normalize::centroid_of, linalg::specs::Mean::mean_of), using(linalg::proofs::Sums::sum_none, linalg::proofs::Sums::sum_more, crate::proofs::Points::mean_is))]
pub fn centroid(points: Points) -> Point
    ensures { result ≡ centroid_of (points_of points.entry.marks.now) }
{
    let mut x = 0.0;
    let mut y = 0.0;
    let mut z = 0.0;
    for i in 0..points.len() {
        let p = points.at(i);
        x += p.x;
        y += p.y;
        z += p.z;
    }
    let count = std::num::nearest_usize_to_f64(points.len());
    Point {
        x: x / count,
        y: y / count,
        z: z / count,
    }
}

// The square of the distance of two points.
#[tactic(auto, unfolding(crate::specs::Normalize::squared_apart))]
pub fn squared_apart(p: Point, q: Point) -> f64
    ensures { result ≡ squared_apart p q }
{
    let dx = p.x - q.x;
    let dy = p.y - q.y;
    let dz = p.z - q.z;
    dx * dx + dy * dy + dz * dz
}

// The squares of the points' distances from a centre.
#[derive(Clone, Copy)]
struct FromCentre<'a> {
    points: Points<'a>,
    centre: Point,
}

impl<'a> Squares for FromCentre<'a> {
    ghost count = { λ s. length (points_of s.points.marks.now) };

    ghost square = { λ s. square_at s.centre s.points.marks.now };

    fn len(self) -> usize {
        self.points.len()
    }

    #[tactic(auto, unfolding(crate::specs::Normalize::square_at))]
    fn at(self, i: usize) -> f64 {
        squared_apart(self.points.at(i), self.centre)
    }
}

#[tactic(auto, using(crate::proofs::Points::distance_is))]
pub fn mean_distance(points: Points, centre: Point) -> f64
    ensures { result ≡ mean_distance centre (points_of points.entry.marks.now) }
{
    mean_root(FromCentre { points, centre })
}

// The change that normalises the points; none where they have no spread.
#[tactic(auto, unfolding(crate::specs::Normalize::change_of, crate::specs::Normalize::similarity_of, crate::specs::Normalize::no_spread), using(linalg::proofs::Changes::root_of_3))]
pub fn change_of(points: Points) -> Option<Change>
    ensures { result ≡ change_of (points_of points.entry.marks.now) }
{
    let centre = centroid(points);
    let mean = mean_distance(points, centre);
    if points.len() == 0 || mean <= f64::EPSILON {
        return None;
    }
    Some(Change {
        centre,
        scale: SQRT_3 / mean,
    })
}

#[tactic(auto, unfolding(crate::specs::Normalize::normalized_by))]
pub fn normalize_point(change: Change, p: Point) -> Point
    ensures { result ≡ normalized_by change p }
{
    Point {
        x: (p.x - change.centre.x) * change.scale,
        y: (p.y - change.centre.y) * change.scale,
        z: (p.z - change.centre.z) * change.scale,
    }
}

#[tactic(auto, unfolding(crate::specs::Normalize::matrix_of))]
fn matrix_of(change: Change) -> [Row; 4]
    ensures { result ≡ matrix_of change }
{
    let scale = change.scale;
    [
        Row {
            cells: [scale, 0.0, 0.0, -scale * change.centre.x],
        },
        Row {
            cells: [0.0, scale, 0.0, -scale * change.centre.y],
        },
        Row {
            cells: [0.0, 0.0, scale, -scale * change.centre.z],
        },
        Row {
            cells: [0.0, 0.0, 0.0, 1.0],
        },
    ]
}

// Every point, normalised, into its own three places.
#[tactic(auto, using(crate::proofs::Points::written_none, crate::proofs::Points::written_more, crate::proofs::Points::written_all))]
fn write_points(points: Points, change: Change, lent: &mut [f64])
    requires { 3 * length (points_of points.marks.now) ≤ length lent.old }
    ensures { lent.new ≡ normalized_list change (points_of points.entry.marks.now) lent.old }
{
    for i in 0..points.len() {
        let p = normalize_point(change, points.at(i));
        lent[3 * i] = p.x;
        lent[3 * i + 1] = p.y;
        lent[3 * i + 2] = p.z;
    }
}

// The points of a list of marks, normalised, into the lent list, x, y and z by turns, and the matrix of
// the change. Refused with 5, 6, 18, 12 or 9, in this order; the lent list then stays as it is.
#[tactic(auto, unfolding(rule::specs::Order::first_failed, rule::specs::Order::decided, rule::specs::Order::if_passed, rule::specs::Order::room, crate::specs::Normalize::change_of, crate::specs::Normalize::spread, crate::specs::Normalize::normalize_tests, crate::specs::Normalize::normalize_answer), using(estimator::proofs::Order::marks_first, estimator::proofs::Order::above_0, form::proofs::Places::points_fifth))]
pub fn normalize_points_3d(marks: &[f64], lent: &mut [f64]) -> Result<Normalized, Refusal>
    ensures { Normalizing marks.now lent.old result lent.new }
{
    estimator::check_marks::<Camera>(marks)?;
    let points = Points { marks };
    let change = change_of(points).ok_or(Refusal::Spread)?;
    if lent.len() < 3 * points.len() {
        return Err(Refusal::Room);
    }
    write_points(points, change, lent);
    Ok(Normalized {
        matrix: matrix_of(change),
    })
}
