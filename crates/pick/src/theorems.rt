// The theorems about the calls, each the promise of a function that does nothing: so the crate isn't proved
// without it.
ghost use Rattle.pick.specs.Run.{OneState};
ghost use Rattle.pick.specs.Accepted.{AfterOpening};

use estimator::Estimator;

/// What an accepted opening promises of the calls after it.
#[tactic(auto, using(crate::proofs::Accepted::after_opening))]
pub fn after_opening<E: Estimator>()
    ensures { AfterOpening E.family }
{}

/// That the contracts by the state's view, and by a trial's answer's, leave one answer.
#[tactic(auto, using(crate::proofs::View::answer_one))]
pub fn one_answer<E, M>()
    ensures { OneState E M }
{}
