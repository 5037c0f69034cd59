// The measuring of a list of marks under a candidate (document 01, 'Distance', and document 02, orders 2,
// 3 and 5), for any family: the square of each mark's distance, in a list that is lent, and how many
// marks are beyond. It is all that scoring sees of the candidate, the mark and the distance. No root is
// taken here, and there is no threshold.
#![tactic(auto)]

ghost use Rattle.std.specs.Prelude.{◌≡◌};
ghost use Rattle.rule.specs.Lists.{filled};
ghost use Rattle.estimator.specs.Family.{squares_of};
ghost use Rattle.measure.specs.Found.{beyond_found};

use estimator::Estimator;

// Writes the square of each mark's distance to the front of `squares`, and answers how many marks are
// beyond. Where `squares` has not a place for each mark it writes nothing and answers 0, as for none:
// the picker lends a place for each, so this is no refusal.
#[tactic(auto, using(crate::proofs::Squares::squares_none, crate::proofs::Squares::squares_no_room, crate::proofs::Squares::squares_more, crate::proofs::Squares::squares_all, crate::proofs::Squares::beyond_next, crate::proofs::Squares::beyond_end, crate::proofs::Squares::beyond_no_room, crate::proofs::Squares::beyond_all, crate::proofs::Squares::or_infinite, crate::proofs::Squares::one_more))]
pub fn squared_residuals<E: Estimator>(
    e: E,
    h: E::Model,
    ratio: f64,
    marks: &[f64],
    squares: &mut [f64],
) -> usize
    ensures value { result ≡ beyond_found E.family e marks.now h squares.old }
    ensures squares_after { squares.new ≡ filled (squares_of E.family e ratio marks.now h) squares.old }
{
    let n = estimator::mark_count::<E>(marks);
    if squares.len() < n {
        return 0;
    }
    let mut beyond = 0;
    for i in 0..n {
        let square = e.squared_distance(h, E::mark_at(marks, i), ratio);
        squares[i] = square.unwrap_or(f64::INFINITY);
        beyond += usize::from(square.is_none());
    }
    beyond
}
