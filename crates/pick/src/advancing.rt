// One trial for a run that gives no outcome (document 01, 'Winner'): the next state and nothing
// besides. A root mean square that can't decide who wins is not worked out.
ghost use Rattle.std.specs.Prelude.{◌≡◌, ◌≤◌, length, take};
ghost use Rattle.rule.specs.Answer.{told};
ghost use Rattle.book.specs.Score.{scored};
ghost use Rattle.book.specs.Book.{held, winner_after};
ghost use Rattle.judge.specs.Judging.{call_of, support_with};
ghost use Rattle.pick.specs.Run.{view_best, view_winner, view_state};
ghost use Rattle.pick.specs.Trial.{booked, step_booking, next_of, squares_then};

use crate::before_end::BeforeEnd;
use crate::run_state::{State, Winner};
use estimator::Estimator;
use judge::{Call, Support, Verdict};
use rule::Refusal;

// The winner after a scored trial: with a lower count the one so far stays whatever the root mean square
// is, and with the same one unless that is less.
#[tactic(auto, unfolding(book::specs::Book::winner_after, book::specs::Book::beats, book::specs::Book::is_better, score::specs::Less::less_of, judge::specs::Judging::support_with))]
fn next_winner<M: Copy>(
    best: Option<Winner<M>>,
    t: Support<M>,
    number: u32,
    thresh: f64,
    squares: &[f64],
) -> Winner<M>
    ensures { held (view_winner result) ≡ winner_after (support_with thresh squares.now t) number (view_best best) }
{
    let won = |rms| Winner {
        model: t.model,
        count: t.count,
        rms,
        number,
    };
    match best {
        Some(w) if t.count < w.count => w,
        Some(w) if t.count == w.count => {
            score::rms_if_less(thresh, squares, t.count, w.rms).map_or(w, won)
        }
        _ => won(score::rms(thresh, squares, t.count)),
    }
}

impl<E: Copy, M: Copy> BeforeEnd<E, M> {
    // The state after a scored trial whose squares are at the front of the list.
    #[tactic(auto, using(crate::proofs::Booking::open_counts), unfolding(book::specs::Book::entered, judge::specs::Judging::rule_of, judge::specs::Judging::support_with))]
    fn after_scored(&self, t: Support<M>, squares: &[f64]) -> State<E, M>
        requires { self.now.state.n ≤ length squares.now }
        ensures { view_state result ≡ (booked self.now.state (scored (support_with self.now.state.options.thresh (take self.now.state.n squares.now) t))).run }
    {
        let s = self.state;
        let number = s.counts.read + 1;
        let winner = next_winner(s.winner, t, number, s.options.thresh, &squares[..s.n]);
        self.scored(Some(winner), t.stop)
    }
}

// One trial over marks that were tested before, refused as `step` refuses it: the state is the one
// that `step` gives. The squares of the marks are measured into the list that is lent.
#[tactic(auto, using(judge::proofs::Left::support_scored), unfolding(crate::specs::Trial::step_booking, crate::specs::Trial::next_of, crate::specs::Trial::squares_then, book::specs::Calls::tried, book::specs::Calls::is_refusal, book::specs::Calls::number_in, book::specs::Book::entered, book::specs::Book::scored_answer))]
pub fn advance<E: Estimator>(
    s: State<E, E::Model>,
    call: Call,
    squares: &mut [f64; 2000],
) -> Result<State<E, E::Model>, Refusal>
    ensures result_value { told view_state result ≡ next_of (step_booking E.family (view_state s) (call_of call.entry)) }
    ensures squares_after { squares.new ≡ squares_then E.family (view_state s) (call_of call.entry) squares.old }
{
    let before_end = BeforeEnd::of(s)?;
    let found = judge::count_support(s.estimator, s.options, s.n, call, squares)?;
    match found.verdict {
        Verdict::Empty => Ok(before_end.empty()),
        Verdict::Few(_) => Ok(before_end.few()),
        Verdict::Scored(t) => Ok(before_end.after_scored(t, squares)),
    }
}
