// The theorems about what is judged, each the promise of a function that does nothing: so the crate isn't
// proved without it.
ghost use Rattle.judge.specs.Judging.{OneJudgement};
ghost use Rattle.judge.specs.Beyond.{MarksWithinAndBeyond};

use estimator::Estimator;

/// That the marks beyond and those within the threshold are at most all marks together.
#[tactic(auto, using(crate::proofs::Beyond::marks_within_and_beyond))]
pub fn marks_within_and_beyond<E: Estimator>()
    ensures { MarksWithinAndBeyond E.family }
{}

/// That the contracts of `judge` and `count_support` leave one answer.
#[tactic(auto, using(crate::proofs::View::answer_one))]
pub fn one_answer<M>()
    ensures { OneJudgement M }
{}
