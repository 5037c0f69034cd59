// The book's rules by numbers (document 01, 'Picking rule'), for the state of any family: whether it
// takes no more trials, the bound after a scored trial, and whether that trial wins over the winner.
#![tactic(auto)]

ghost use Rattle.std.specs.Prelude.{◌≡◌};
ghost use Rattle.book.specs.Book.{bound_after, is_better};
ghost use Rattle.book.specs.Calls.{closed_at};

// A state's counts: trials read, those of them that were empty, few and scored, and the bound.
#[derive(Clone, Copy)]
pub struct Counts {
    pub read: u32,
    pub empty: u32,
    pub few: u32,
    pub scored: u32,
    pub bound: u32,
}

impl Counts {
    // Whether a state with these counts takes no more trials: it has ended, or no run could have made it.
    #[tactic(auto, unfolding(book::specs::Calls::closed_at, book::specs::Book::ended_at))]
    pub fn is_closed(self) -> bool
        ensures { result ≡ closed_at self.read self.empty self.few self.scored self.bound }
    {
        self.bound <= self.read
            || 100_000 <= self.read
            || self.read < self.empty
            || self.read < self.few
            || self.read < self.scored
    }
}

// The bound after a scored trial with this stop entry, itself counted as read.
#[tactic(auto, unfolding(book::specs::Book::bound_after, book::specs::Book::raised, book::specs::Book::lowered))]
pub fn bound_after(stop: u32, read: u32, max_iters: u32) -> u32
    ensures { result ≡ bound_after max_iters read stop }
{
    stop.max(read).min(max_iters)
}

// Whether a scored trial wins: its count is higher than the winner's so far, or equal and its root
// mean square less. (Two counts and two root mean squares, as in the source.)
#[tactic(auto, unfolding(book::specs::Book::is_better))]
pub fn is_better_model(count: u32, rms: f64, best_count: u32, best_rms: f64) -> bool
    ensures { result ≡ is_better count rms best_count best_rms }
{
    best_count < count || (count == best_count && rms < best_rms)
}
