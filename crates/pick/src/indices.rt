// Which marks lie within the threshold under the winner (document 01, 'Winner'). They are worked out
// again from its model.
ghost use Rattle.std.specs.Prelude.{◌≡◌, ◌≤◌, OnOk, length};
ghost use Rattle.rule.specs.Answer.{answered, refusal_in};
ghost use Rattle.rule.specs.Order.{first_failed};
ghost use Rattle.pick.specs.Run.{view_state};
ghost use Rattle.pick.specs.Indices.{marks_order, indices_answer, indices_after};

use crate::run_state::State;
use estimator::Estimator;
use rule::Refusal;

// The tests after 11, in order.
#[tactic(auto, using(estimator::proofs::Run::run_first, estimator::proofs::Order::above_0), unfolding(rule::specs::Order::first_failed, rule::specs::Order::room, crate::specs::Indices::marks_order, estimator::specs::Marks::of_run))]
fn check_order<E: Estimator>(n: usize, marks: &[f64], places: usize) -> Result<(), Refusal>
    ensures refusal_value { refusal_in result ≡ first_failed (marks_order E.family n marks.now places) }
    ensures few_enough { OnOk result (length (E.family.marks_of marks.now) ≤ 2000) }
{
    if estimator::mark_count::<E>(marks) != n {
        return Err(Refusal::Shape);
    }
    estimator::check_run::<E>(marks)?;
    if places < n {
        return Err(Refusal::Room);
    }
    Ok(())
}

// Writes the places of the marks within the threshold under the winner to the front of `indices`,
// ascending, and answers how many; refused with 11, 5, 6, 7, 18 or 9, in this order, and then nothing is
// written. (How many, beside a list that is lent: document 01's form of an index list.)
#[tactic(auto, using(crate::proofs::Written::count_written, crate::proofs::Written::all_written), unfolding(rule::specs::Order::decided, rule::specs::Order::if_passed, crate::specs::Indices::indices_answer, crate::specs::Indices::indices_after, crate::specs::Indices::winner_answer, crate::specs::Indices::winner_after, crate::specs::Indices::under_answer, crate::specs::Indices::under_after))]
pub fn winner_indices<E: Estimator>(
    s: State<E, E::Model>,
    marks: &[f64],
    indices: &mut [u32],
) -> Result<usize, Refusal>
    ensures result_value { answered result ≡ indices_answer E.family (view_state s) marks.now indices.old }
    ensures indices_after { indices.new ≡ indices_after E.family (view_state s) marks.now indices.old }
{
    let winner = s.winner.ok_or(Refusal::NoWinner)?;
    check_order::<E>(s.n, marks, indices.len())?;
    // no heap, so there is a place for each mark of the longest run
    let mut squares = [0.0; 2000];
    Ok(judge::write_inliers(
        s.estimator,
        s.options,
        winner.model,
        marks,
        &mut squares,
        indices,
    ))
}
