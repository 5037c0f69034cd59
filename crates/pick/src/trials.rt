// One trial (document 01, 'Trials'), on any state.
ghost use Rattle.std.specs.Prelude.{◌≡◌};
ghost use Rattle.book.specs.Score.{scored};
ghost use Rattle.book.specs.Book.{beats};
ghost use Rattle.judge.specs.Judging.{call_of, judged_as, standing_of};
ghost use Rattle.pick.specs.Run.{view_best, view_state, view_tried};
ghost use Rattle.pick.specs.Trial.{booked, answer_of, answer_in, trial_answer, step_answer};

use crate::before_end::BeforeEnd;
use crate::run_state::{Outcome, State, Tried, Winner};
use estimator::Estimator;
use judge::{Call, Judgement, Standing, Verdict};
use rule::Refusal;

// Whether a scored trial wins: over the winner so far, or where nothing won before.
#[tactic(auto, unfolding(book::specs::Book::beats, judge::specs::Judging::standing_of))]
fn wins<M: Copy>(s: Standing<M>, best: Option<Winner<M>>) -> bool
    ensures { result ≡ beats (standing_of s) (view_best best) }
{
    best.is_none_or(|w| booking::is_better_model(s.support.count, s.rms, w.count, w.rms))
}

impl<E: Estimator> BeforeEnd<E, E::Model> {
    // The answer to a scored trial.
    #[tactic(auto, using(crate::proofs::Booking::open_counts), unfolding(book::specs::Book::entered, book::specs::Book::winner_after, book::specs::Book::scored_answer, judge::specs::Judging::standing_of, judge::specs::Judging::rule_of))]
    fn held_or_won(&self, s: Standing<E::Model>, beyond: u32) -> Tried<E, E::Model>
        ensures { view_tried result ≡ answer_of (booked self.now.state (scored (standing_of s))) beyond }
    {
        let best = self.state.winner;
        let t = s.support;
        if !wins(s, best) {
            return Tried {
                state: self.scored(best, t.stop),
                outcome: Outcome::Held(t.count, s.rms),
                beyond,
            };
        }
        let winner = Winner {
            model: t.model,
            count: t.count,
            rms: s.rms,
            number: self.state.counts.read + 1,
        };
        Tried {
            state: self.scored(Some(winner), t.stop),
            outcome: Outcome::Won(t.count, s.rms),
            beyond,
        }
    }

    // The answer to a judged trial.
    #[tactic(auto, unfolding(book::specs::Book::entered))]
    fn answered(&self, j: Judgement<Standing<E::Model>>) -> Tried<E, E::Model>
        ensures { view_tried result ≡ answer_of (booked self.now.state (judged_as standing_of j.verdict)) j.beyond }
    {
        let beyond = j.beyond;
        match j.verdict {
            Verdict::Empty => Tried {
                state: self.empty(),
                outcome: Outcome::Empty,
                beyond,
            },
            Verdict::Few(count) => Tried {
                state: self.few(),
                outcome: Outcome::Few(count),
                beyond,
            },
            Verdict::Scored(s) => self.held_or_won(s, beyond),
        }
    }

    // One trial over marks that were tested before: refused with 5, 7, 8 or 1, in this order.
    #[tactic(auto, unfolding(crate::specs::Trial::step_answer, book::specs::Calls::tried, book::specs::Book::entered))]
    fn judged(&self, call: Call) -> Result<Tried<E, E::Model>, Refusal>
        ensures { answer_in self.now.state result ≡ step_answer E.family (view_state self.now.state) (call_of call.entry) }
    {
        let s = self.state;
        let j = judge::judge(s.estimator, s.options, s.n, call)?;
        Ok(self.answered(j))
    }
}

// `tried` and `stepped` are `trial` and `step` with a refusal as an `Err`, which has no place for the old
// state: those two put it beside.
#[tactic(auto, using(crate::proofs::Order::trial_by_tests))]
fn tried<E: Estimator>(s: State<E, E::Model>, call: Call) -> Result<Tried<E, E::Model>, Refusal>
    ensures { answer_in s result ≡ trial_answer E.family (view_state s) (call_of call.entry) }
{
    let before_end = BeforeEnd::of(s)?;
    if estimator::mark_count::<E>(call.marks) != s.n {
        return Err(Refusal::Shape);
    }
    estimator::check_run::<E>(call.marks)?;
    before_end.judged(call)
}

#[tactic(auto, unfolding(crate::specs::Trial::step_answer, book::specs::Calls::tried))]
fn stepped<E: Estimator>(s: State<E, E::Model>, call: Call) -> Result<Tried<E, E::Model>, Refusal>
    ensures { answer_in s result ≡ step_answer E.family (view_state s) (call_of call.entry) }
{
    BeforeEnd::of(s)?.judged(call)
}

// The old state, and the refusal.
fn refused<E: Copy, M: Copy>(s: State<E, M>, refusal: Refusal) -> Tried<E, M>
    ensures { view_tried result ≡ answer_in s (Err refusal) }
{
    Tried {
        state: s,
        outcome: Outcome::Refused(refusal),
        beyond: 0,
    }
}

// One trial over marks that were tested before: refused with 10, 5, 7, 8 or 1, in this order. (Beside
// `trial`: the opening has tested the marks, and each trial would test them again.)
pub fn step<E: Estimator>(s: State<E, E::Model>, call: Call) -> Tried<E, E::Model>
    ensures { view_tried result ≡ step_answer E.family (view_state s) (call_of call.entry) }
{
    stepped(s, call).unwrap_or_else(|e| refused(s, e))
}

// One trial; refused with 10, 5, 6, 7, 18, 8 or 1, in this order.
pub fn trial<E: Estimator>(s: State<E, E::Model>, call: Call) -> Tried<E, E::Model>
    ensures { view_tried result ≡ trial_answer E.family (view_state s) (call_of call.entry) }
{
    tried(s, call).unwrap_or_else(|e| refused(s, e))
}
