// Hartley normalising of one side's points (document 01, 'Normalising'; `normalize_points_2d` of
// linalg.rs): the centroid goes to the origin and the mean distance from it to the root of 2.
#![tactic(auto)]

mod means;

ghost use Rattle.std.specs.Prelude.{◌≡◌, ◌*◌, ◌≤◌, length};
ghost use Rattle.sheet.specs.Marks.{points as points_of};
ghost use Rattle.linalg.specs.Normalize.{centroid_of, mean_distance, square_at, change_of, normalized_by, matrix_of, normalized_list, Normalizing};

pub use means::{Squares, mean_root};
use rule::Refusal;
use sheet::{Point, Points, Sheet};
use std::f64::consts::SQRT_2;

// A row of a 3 by 3 matrix.
#[derive(Clone, Copy)]
pub struct Row {
    pub cells: [f64; 3],
}

// The change to normalised coordinates: subtract the centre, multiply by the scale. `flat` says that the
// points have no spread, and then the rest says nothing. (A flag, since `change_of` gives the rest of such
// points too: an `Option` has no place for it.)
#[derive(Clone, Copy)]
pub struct Change {
    pub flat: bool,
    pub centre: Point,
    pub scale: f64,
}

// What `normalize_points_2d` gives: the matrix of the change.
#[derive(Clone, Copy)]
pub struct Normalized {
    pub matrix: [Row; 3],
}

#[tactic(auto, unfolding(crate::specs::Normalize::centroid_of, crate::specs::Mean::mean_of), using(crate::proofs::Sums::sum_none, crate::proofs::Sums::sum_more, crate::proofs::Sides::mean_is))]
pub fn centroid(points: Points) -> Point
    ensures { result ≡ centroid_of (points_of points.entry.side points.entry.marks.now) }
{
    let mut x = 0.0;
    let mut y = 0.0;
    for i in 0..points.len() {
        let p = points.at(i);
        x += p.x;
        y += p.y;
    }
    let count = std::num::nearest_usize_to_f64(points.len());
    Point {
        x: x / count,
        y: y / count,
    }
}

// The squares of the points' distances from a centre.
#[derive(Clone, Copy)]
struct FromCentre<'a> {
    points: Points<'a>,
    centre: Point,
}

impl<'a> Squares for FromCentre<'a> {
    ghost count = { λ s. length (points_of s.points.side s.points.marks.now) };

    ghost square = { λ s. square_at s.centre s.points.side s.points.marks.now };

    fn len(self) -> usize {
        self.points.len()
    }

    #[tactic(auto, unfolding(crate::specs::Normalize::square_at))]
    fn at(self, i: usize) -> f64 {
        sheet::squared_apart(self.points.at(i), self.centre)
    }
}

#[tactic(auto, using(crate::proofs::Sides::distance_is))]
pub fn mean_distance(points: Points, centre: Point) -> f64
    ensures { result ≡ mean_distance centre (points_of points.entry.side points.entry.marks.now) }
{
    mean_root(FromCentre { points, centre })
}

// The change that normalises one side, of any points.
#[tactic(auto, unfolding(crate::specs::Normalize::change_of, crate::specs::Normalize::no_spread), using(crate::proofs::Changes::root_of_2))]
pub fn change_of(points: Points) -> Change
    ensures { result ≡ change_of (points_of points.entry.side points.entry.marks.now) }
{
    let centre = centroid(points);
    let mean = mean_distance(points, centre);
    Change {
        flat: points.len() == 0 || mean <= f64::EPSILON,
        centre,
        scale: SQRT_2 / mean,
    }
}

#[tactic(auto, unfolding(crate::specs::Normalize::normalized_by))]
pub fn normalize_point(change: Change, p: Point) -> Point
    ensures { result ≡ normalized_by change p }
{
    Point {
        x: (p.x - change.centre.x) * change.scale,
        y: (p.y - change.centre.y) * change.scale,
    }
}

#[tactic(auto, unfolding(crate::specs::Normalize::matrix_of))]
fn matrix_of(change: Change) -> [Row; 3]
    ensures { result ≡ matrix_of change }
{
    let scale = change.scale;
    [
        Row {
            cells: [scale, 0.0, -scale * change.centre.x],
        },
        Row {
            cells: [0.0, scale, -scale * change.centre.y],
        },
        Row {
            cells: [0.0, 0.0, 1.0],
        },
    ]
}

// Every point of the side, normalised, into its own two places.
#[tactic(auto, using(crate::proofs::Sides::written_none, crate::proofs::Sides::written_more, crate::proofs::Sides::written_all))]
fn write_points(points: Points, change: Change, lent: &mut [f64])
    requires { 2 * length (points_of points.side points.marks.now) ≤ length lent.old }
    ensures { lent.new
        ≡ normalized_list change (points_of points.entry.side points.entry.marks.now) lent.old }
{
    for i in 0..points.len() {
        let p = normalize_point(change, points.at(i));
        lent[2 * i] = p.x;
        lent[2 * i + 1] = p.y;
    }
}

// One side's points, normalised, into the lent list, x and y by turns, and the matrix of the change.
// Refused with 5, 6, 18, 12 or 9, in this order; the lent list then stays as it is.
#[tactic(auto, unfolding(rule::specs::Order::first_failed, rule::specs::Order::decided, rule::specs::Order::if_passed, rule::specs::Order::room, crate::specs::Normalize::change_of, crate::specs::Normalize::spread, crate::specs::Normalize::normalize_tests, crate::specs::Normalize::normalize_answer), using(estimator::proofs::Order::marks_first, estimator::proofs::Order::above_0, sheet::proofs::Places::points_quarter))]
pub fn normalize_points_2d(points: Points, lent: &mut [f64]) -> Result<Normalized, Refusal>
    ensures { Normalizing points.entry.marks.now points.entry.side lent.old result lent.new }
{
    estimator::check_marks::<Sheet>(points.marks)?;
    let change = change_of(points);
    if change.flat {
        return Err(Refusal::Spread);
    }
    if lent.len() < 2 * points.len() {
        return Err(Refusal::Room);
    }
    write_points(points, change, lent);
    Ok(Normalized {
        matrix: matrix_of(change),
    })
}
