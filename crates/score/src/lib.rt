// How distances agree with a threshold (document 01, 'Trials'): how many are within it, the root mean
// square of those, and which they are. All is read from a list of the distances' squares, which a
// family's measuring has filled: nothing here knows a model or a mark. (In the terms of the field, the
// support of a hypothesis.) Roots are the cost, so none is taken that the answer doesn't need. (A
// threshold and its squares go by themselves to each function: a struct of the two would be made at each
// call, of options that stand and a list that is lent.)
#![tactic(auto)]

mod limits;
mod sum;

ghost use Rattle.std.specs.Prelude.{◌≡◌, false, map};
ghost use Rattle.std.specs.Float.Ieee.{is_nan};
ghost use Rattle.root.specs.Root.{root_of};
ghost use Rattle.book.specs.Score.{count_in, squares_in, rms_of};
ghost use Rattle.score.specs.Places.{index_count, indexed};
ghost use Rattle.score.specs.Limits.{Under};
ghost use Rattle.score.specs.Less.{less_of};

use limits::Limits;
use sum::Sum;

// How many of the squares have a root within the threshold.
#[tactic(auto, using(crate::proofs::Walk::all_told, crate::proofs::Walk::count_by_roots))]
pub fn count_inliers(thresh: f64, squares: &[f64]) -> usize
    ensures { result ≡ count_in thresh (map root_of squares.now) }
{
    let limits = Limits::of(thresh);
    let mut sure = 0;
    let mut possible = 0;
    // No root and no jump, in one walk for both: by two chains it takes 1.4 to 1.7 times as long.
    for q in squares {
        sure += usize::from(limits.is_sure(*q));
        possible += usize::from(limits.is_possible(*q));
    }
    if sure == possible {
        return sure;
    }
    squares.iter().filter(|q| limits.is_close(**q)).count()
}

// The sum of the squares of the roots within the threshold, in index order from 0. A root is rounded
// before it is squared, so the sum is not that of the squares in the list.
#[tactic(auto, using(crate::proofs::Walk::squares_none, crate::proofs::Walk::squares_more))]
fn sum_squares(limits: Limits, squares: &[f64]) -> f64
    ensures { result ≡ squares_in limits.thresh (map root_of squares.now) }
{
    let mut sum = Sum::NONE;
    for square in squares {
        sum = sum.add(limits, *square);
    }
    sum.all(limits.thresh)
}

/// The root mean square of the roots within the threshold, by their number; infinite where that is 0, and
/// never a NaN.
#[tactic(auto, using(crate::proofs::Number::numbers), unfolding(book::specs::Score::rms_of))]
pub fn rms(thresh: f64, squares: &[f64], count: u32) -> f64
    ensures value { result ≡ rms_of count (squares_in thresh (map root_of squares.now)) }
    ensures number { is_nan result ≡ false }
{
    if count == 0 {
        return f64::INFINITY;
    }
    root::sqrt(sum_squares(Limits::of(thresh), squares) / f64::from(count))
}

// No more than the sum of the squares, and hardly less unless it is `enough`. No root is taken.
#[tactic(auto, using(crate::proofs::Least::summing))]
fn least_sum(limits: Limits, squares: &[f64], enough: f64) -> f64
    ensures { Under result (squares_in limits.thresh (map root_of squares.now)) }
{
    let mut sum = 0.0;
    for q in squares {
        if enough <= sum {
            return sum;
        }
        sum += limits.least_addend(*q);
    }
    sum
}

// The root mean square if it is less than `best`. Nearly always where it isn't, the least that it can
// be is enough to tell, and that takes one root.
#[tactic(auto, using(crate::proofs::Least::told_by_least), unfolding(crate::specs::Less::less_of))]
pub fn rms_if_less(thresh: f64, squares: &[f64], count: u32, best: f64) -> Option<f64>
    ensures { result ≡ less_of (rms_of count (squares_in thresh (map root_of squares.now))) best }
{
    if count != 0 {
        let n = f64::from(count);
        let least = least_sum(Limits::lower_of(thresh), squares, best * best * n);
        if best <= root::sqrt(least / n) {
            return None;
        }
    }
    let rms = rms(thresh, squares, count);
    (rms < best).then_some(rms)
}

// Writes the places of the squares with a root within the threshold to the front of `indices`,
// ascending, and answers how many; nothing where it has not a place for each square, or there are
// over 2,000. It answers 0 then, as where none is within: it can't fail, and who calls it has the room.
// (How many, beside a list that is lent: document 01's form of an index list.)
#[tactic(auto, using(std::proofs::lemmas::Grind::common_steps, crate::proofs::Walk::placing), unfolding(crate::specs::Places::index_count, crate::specs::Places::indexed, crate::specs::Places::cramped))]
pub fn write_inliers(thresh: f64, squares: &[f64], indices: &mut [u32]) -> usize
    ensures value { result ≡ index_count thresh (map root_of squares.now) indices.old }
    ensures indices_after { indices.new ≡ indexed thresh (map root_of squares.now) indices.old }
{
    if indices.len() < squares.len() || 2000 < squares.len() {
        return 0;
    }
    let limits = Limits::of(thresh);
    let mut count = 0;
    for (i, q) in squares.iter().enumerate() {
        if limits.is_close(*q) {
            indices[count] = i as u32;
            count += 1;
        }
    }
    count
}
