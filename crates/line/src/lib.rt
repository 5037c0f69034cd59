// Whether one side's points lie on a line (document 01, 'Collinear'; `points_are_collinear` of
// homography.rs).
#![tactic(auto)]

ghost use Rattle.std.specs.Prelude.{◌≡◌};
ghost use Rattle.rule.specs.Answer.{answered};
ghost use Rattle.sheet.specs.Marks.{points as points_of};
ghost use Rattle.line.specs.Collinear.{apart, cross_of, on_baseline, collinear, collinear_answer};

use rule::Refusal;
use sheet::{Point, Points, Sheet};

// Whether `p` is more than 1e-9 from `p0`. The first two tests spare the root, which no double's
// square distance asks for: their limits are neighbours, and the root of the lower one is 1e-9.
#[tactic(auto, unfolding(crate::specs::Collinear::apart), using(crate::proofs::Near::is_apart, crate::proofs::Near::not_apart))]
fn is_apart(p0: Point, p: Point) -> bool
    ensures { result ≡ apart p0 p }
{
    let square = sheet::squared_apart(p, p0);
    if 1.0000000000000005e-18 <= square {
        return true;
    }
    if square <= 1.0000000000000003e-18 {
        return false;
    }
    1e-9 < root::sqrt(square)
}

// The cross product of the baseline from `p0` to `p1` and the way from `p0` to `p2`.
#[tactic(auto, unfolding(crate::specs::Collinear::cross_of))]
fn cross(p0: Point, p1: Point, p2: Point) -> f64
    ensures { result ≡ cross_of p0 p1 p2 }
{
    (p1.x - p0.x) * (p2.y - p0.y) - (p1.y - p0.y) * (p2.x - p0.x)
}

// A point that is not apart from `p0` is passed over.
#[tactic(auto, unfolding(crate::specs::Collinear::on_baseline))]
fn on_baseline(p0: Point, p1: Point, p: Point) -> bool
    ensures { result ≡ on_baseline p0 p1 p }
{
    !(1e-6 < numbers::abs(cross(p0, p1, p)) && is_apart(p0, p))
}

// Whether the points of a side are collinear, for any numbers. It goes through the points once: those
// before the baseline's end are near point 0, and passed over.
pub fn on_one_line(points: Points) -> bool
    ensures { result ≡ collinear (points_of points.entry.side points.entry.marks.now) }
{
    let n = points.len();
    if n < 3 {
        return false;
    }
    let p0 = points.at(0);
    let Some(first) = (0..n).find(|i| is_apart(p0, points.at(*i))) else {
        return true;
    };
    let p1 = points.at(first);
    (first..n).all(|i| on_baseline(p0, p1, points.at(i)))
}

// Whether the points of a side are collinear; refused with 5, 6 or 18, in this order.
#[tactic(auto, unfolding(rule::specs::Order::decided, crate::specs::Collinear::collinear_answer), using(rule::proofs::Order::decided_some, rule::proofs::Views::number_above_0))]
pub fn points_are_collinear(points: Points) -> Result<bool, Refusal>
    ensures { answered result ≡ collinear_answer points.entry.marks.now points.entry.side }
{
    estimator::check_marks::<Sheet>(points.marks)?;
    Ok(on_one_line(points))
}
