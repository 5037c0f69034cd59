// A state that takes one more trial, and the states after it (document 01, 'Picking rule').
ghost use Rattle.std.specs.Prelude.{◌≡◌, true, false, MatchResult};
ghost use Rattle.book.specs.Score.{empty, few};
ghost use Rattle.book.specs.Calls.{is_closed};
ghost use Rattle.pick.specs.Run.{book_of, view_best, view_state};
ghost use Rattle.pick.specs.Trial.{booked, scored_run};

use crate::run_state::{State, Winner};
use rule::Refusal;

#[derive(Drop)]
pub(crate) struct BeforeEnd<E, M> {
    pub state: State<E, M>,
    ghost takes_one: { is_closed (book_of state) ≡ false },
}

impl<E: Copy, M: Copy> BeforeEnd<E, M> {
    // Refused with 10 after the end, and where no run could have made the state.
    #[tactic(auto, unfolding(book::specs::Calls::is_closed))]
    pub fn of(s: State<E, M>) -> Result<BeforeEnd<E, M>, Refusal>
        ensures { MatchResult result (λ b. b.state ≡ s) (λ e. (e ≡ Refusal.Ended) × (is_closed (book_of s) ≡ true)) }
    {
        if s.counts.is_closed() {
            return Err(Refusal::Ended);
        }
        Ok(BeforeEnd { state: s })
    }

    // The state after a trial without a fit. (This and `few` stay two: one for both would take which count
    // goes up.)
    #[tactic(auto, using(crate::proofs::Booking::open_counts), unfolding(book::specs::Book::entered))]
    pub fn empty(&self) -> State<E, M>
        ensures { view_state result ≡ (booked self.now.state empty).run }
    {
        let mut s = self.state;
        s.counts.read += 1;
        s.counts.empty += 1;
        s
    }

    // The state after a trial whose fit has too few marks, however many they are.
    #[tactic(auto, using(crate::proofs::Booking::open_counts), unfolding(book::specs::Book::entered))]
    pub fn few(&self) -> State<E, M>
        ensures { view_state result ≡ (booked self.now.state (few 0)).run }
    {
        let mut s = self.state;
        s.counts.read += 1;
        s.counts.few += 1;
        s
    }

    // The state after a scored trial with this stop entry: it resets the bound, itself counted as read.
    #[tactic(auto, using(crate::proofs::Booking::open_counts))]
    pub fn scored(&self, winner: Option<Winner<M>>, stop: u32) -> State<E, M>
        ensures { view_state result ≡ scored_run (view_state self.now.state) (view_best winner) stop }
    {
        let mut s = self.state;
        s.counts.read += 1;
        s.counts.scored += 1;
        s.counts.bound = booking::bound_after(stop, s.counts.read, s.options.max_iters);
        s.winner = winner;
        s
    }
}
