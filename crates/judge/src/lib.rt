// What a trial comes to by itself (document 01, 'Trials'), for any family: its tests but for the end of the
// run, the range of the marks' numbers and marks that clash, and the judging of its record over the marks.
// Each model that is asked for is measured once, and a fit again whose refit falls short, into a list that
// is lent; all the rest is read from that list.
#![tactic(auto)]

mod run;
mod theorems;

ghost use Rattle.std.specs.Prelude.{◌≡◌, ◌≤◌, OnOk, length};
ghost use Rattle.rule.specs.Answer.{refusal_in};
ghost use Rattle.rule.specs.Lists.{filled};
ghost use Rattle.rule.specs.Order.{first_failed};
ghost use Rattle.estimator.specs.Family.{distances_of, squares_of};
ghost use Rattle.score.specs.Places.{index_count, indexed};
ghost use Rattle.judge.specs.Judging.{call_of, tested_marks, tested_tests, rms_under, judge_tested, beyond_by, beyond_in, squares_left, standing_of, support_with, view_finding, view_verdict};

use crate::run::Run;
use estimator::Estimator;
use records::RansacOptions;
use rule::Refusal;
pub use theorems::{marks_within_and_beyond, one_answer};

// A trial's record, and the marks and stop entries of its run.
#[derive(Clone, Copy)]
pub struct Call<'a> {
    pub bytes: &'a [u8],
    pub marks: &'a [f64],
    pub stops: &'a [u32],
}

// The model that stands, its own count, and the stop entry of the count.
#[derive(Clone, Copy)]
pub struct Support<M> {
    pub model: M,
    pub count: u32,
    pub stop: u32,
}

// The same with its root mean square, which takes roots and isn't always asked for.
#[derive(Clone, Copy)]
pub struct Standing<M> {
    pub support: Support<M>,
    pub rms: f64,
}

// No fit, too few marks and how many, or scored.
#[derive(Clone, Copy)]
pub enum Verdict<S> {
    Empty,
    Few(u32),
    Scored(S),
}

// The verdict, and how many marks are beyond under the fit.
#[derive(Clone, Copy)]
pub struct Judgement<S> {
    pub verdict: Verdict<S>,
    pub beyond: u32,
}

impl<'a> Call<'a> {
    // The tests that take no walk over the marks, in order: refused with 5, 7 or 8.
    #[tactic(auto, unfolding(rule::specs::Order::first_failed, estimator::specs::Marks::shape, estimator::specs::Marks::shape_tests, estimator::specs::Marks::few, estimator::specs::Marks::of_run, estimator::specs::Marks::entries, crate::specs::Judging::tested_marks))]
    fn check<E: Estimator>(self, n: usize) -> Result<(), Refusal>
        ensures refusal_value { refusal_in result ≡ first_failed (tested_marks E.family n self.entry.marks.now self.entry.stops.now) }
        ensures few_enough { OnOk result ((n ≤ 2000) × (length self.entry.marks.now ≤ 8000)) }
    {
        if estimator::mark_count::<E>(self.marks) != n {
            return Err(Refusal::Shape);
        }
        estimator::check_shape::<E>(self.marks)?;
        if n < E::MIN_SAMPLES {
            return Err(Refusal::Few);
        }
        if self.stops.len() != n + 1 {
            return Err(Refusal::Stops);
        }
        Ok(())
    }
}

impl<M: Copy> Support<M> {
    // With the root mean square that goes with the squares.
    #[tactic(auto, unfolding(crate::specs::Judging::standing_of, crate::specs::Judging::support_with))]
    fn with_rms(self, thresh: f64, squares: &[f64]) -> Standing<M>
        ensures { standing_of result ≡ support_with thresh squares.now self }
    {
        Standing {
            support: self,
            rms: score::rms(thresh, squares, self.count),
        }
    }
}

// Judges a trial of a run of `n` marks but for the root mean square, and leaves the squares of the
// model that stands at the front of `squares`. Of the marks neither the numbers' range is tested nor whether
// two clash: whoever calls has done it, once for a run.
#[tactic(auto, using(crate::proofs::Ways::judge_in_turn, crate::proofs::Ways::beyond_in_turn, crate::proofs::Ways::squares_in_turn))]
pub fn count_support<E: Estimator>(
    e: E,
    o: RansacOptions,
    n: usize,
    call: Call,
    squares: &mut [f64; 2000],
) -> Result<Judgement<Support<E::Model>>, Refusal>
    ensures few_enough { OnOk result (n ≤ 2000) }
    ensures finding_value { view_finding (rms_under E.family e o call.entry.marks.now) result ≡ judge_tested E.family e o n (call_of call.entry) }
    ensures beyond_value { beyond_in result ≡ beyond_by E.family e (tested_tests E.family n (call_of call.entry)) (call_of call.entry) }
    ensures squares_after { squares.new ≡ squares_left E.family e o n (call_of call.entry) squares.old }
{
    call.check::<E>(n)?;
    let trial = records::read_trial::<E>(call.bytes)?;
    let run = Run {
        estimator: e,
        options: o,
        marks: call.marks,
        stops: call.stops,
    };
    Ok(run.judge_trial(trial, squares))
}

// Judges a trial of a run of `n` marks. It tests of them no more than `count_support` does.
#[tactic(auto, using(crate::proofs::Left::support_scored))]
pub fn judge<E: Estimator>(
    e: E,
    o: RansacOptions,
    n: usize,
    call: Call,
) -> Result<Judgement<Standing<E::Model>>, Refusal>
    ensures verdict_value { view_verdict result ≡ judge_tested E.family e o n (call_of call.entry) }
    ensures beyond_value { beyond_in result ≡ beyond_by E.family e (tested_tests E.family n (call_of call.entry)) (call_of call.entry) }
{
    // no heap, so there is a place for each mark of the longest run
    let mut squares = [0.0; 2000];
    let found = count_support(e, o, n, call, &mut squares)?;
    let beyond = found.beyond;
    let verdict = match found.verdict {
        Verdict::Empty => Verdict::Empty,
        Verdict::Few(count) => Verdict::Few(count),
        Verdict::Scored(s) => Verdict::Scored(s.with_rms(o.thresh, &squares[..n])),
    };
    Ok(Judgement { verdict, beyond })
}

// Writes the places of the marks within the threshold under a model to the front of `indices`,
// ascending, and answers how many; nothing where it has not a place for each mark, or there are over
// 2,000. The squares of the model are then at the front of `squares`. Where nothing is written it answers
// 0, as where no mark is within, and it can't refuse: who calls it has tested the marks and the room.
// (How many, beside a list that is lent: document 01's form of an index list.)
#[tactic(auto, using(crate::proofs::Measured::writes), unfolding(rule::specs::Lists::filled, score::specs::Places::index_count, score::specs::Places::indexed, score::specs::Places::cramped))]
pub fn write_inliers<E: Estimator>(
    e: E,
    o: RansacOptions,
    h: E::Model,
    marks: &[f64],
    squares: &mut [f64; 2000],
    indices: &mut [u32],
) -> usize
    ensures value { result ≡ index_count o.thresh (distances_of E.family e o.ratio marks.now h) indices.old }
    ensures squares_after { squares.new ≡ filled (squares_of E.family e o.ratio marks.now h) squares.old }
    ensures indices_after { indices.new ≡ indexed o.thresh (distances_of E.family e o.ratio marks.now h) indices.old }
{
    let n = estimator::mark_count::<E>(marks);
    if squares.len() < n {
        return 0;
    }
    measure::squared_residuals(e, h, o.ratio, marks, squares);
    score::write_inliers(o.thresh, &squares[..n], indices)
}
