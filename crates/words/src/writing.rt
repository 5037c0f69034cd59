// The words of options, counts, a winner and an answer. (A family puts them together, since only it knows
// how many there are.)
ghost use Rattle.std.specs.Prelude.{◌≡◌, map};
ghost use Rattle.pick.specs.Run.{view_winner, view_state, view_outcome, view_tried};
ghost use Rattle.words.specs.Words.{bits, made_words, count_words, held_words, outcome_words, told_words};

use pick::{Outcome, State, Tried, Winner};
use records::RansacOptions;

// The words of options by themselves: those at a state's front, and the ratio's.
pub fn made_words(o: RansacOptions) -> [u64; 6]
    ensures { result ≡ made_words o }
{
    [
        fields::bits_of(o.thresh),
        fields::bits_of(o.confidence),
        u64::from(o.max_iters),
        u64::from(o.min_inliers),
        u64::from(o.refit),
        fields::bits_of(o.ratio),
    ]
}

// Those behind a state's options.
pub fn count_words<E: Copy, M: Copy>(s: State<E, M>) -> [u64; 6]
    ensures { result ≡ count_words (view_state s) }
{
    let c = s.counts;
    [
        s.n as u64,
        u64::from(c.read),
        u64::from(c.empty),
        u64::from(c.few),
        u64::from(c.scored),
        u64::from(c.bound),
    ]
}

// Some numbers'. (By a loop: `map` with its closure would have to be looked through number by number.)
#[tactic(auto, using(crate::proofs::Numbers::words_none, crate::proofs::Numbers::words_more, crate::proofs::Numbers::words_all))]
pub fn number_words<const N: usize>(numbers: [f64; N]) -> [u64; N]
    ensures { result ≡ map bits numbers.entry }
{
    let mut words = [0; N];
    for i in 0..N {
        words[i] = fields::bits_of(numbers[i]);
    }
    words
}

// Those of a winner before its model's.
pub fn held_words<M: Copy>(w: Winner<M>) -> [u64; 4]
    ensures { result ≡ held_words (view_winner w) }
{
    [
        1,
        u64::from(w.count),
        u64::from(w.number),
        fields::bits_of(w.rms),
    ]
}

fn outcome_words(outcome: Outcome) -> [u64; 3]
    ensures { result ≡ outcome_words (view_outcome outcome) }
{
    match outcome {
        Outcome::Refused(refusal) => [0, u64::from(u32::from(refusal)), 0],
        Outcome::Empty => [1, 0, 0],
        Outcome::Few(count) => [2, u64::from(count), 0],
        Outcome::Held(count, rms) => [3, u64::from(count), fields::bits_of(rms)],
        Outcome::Won(count, rms) => [4, u64::from(count), fields::bits_of(rms)],
    }
}

// Those of a trial's answer behind its state's: the outcome's and the number beyond.
pub fn told_words<E: Copy, M: Copy>(t: Tried<E, M>) -> [u64; 4]
    ensures { result ≡ told_words (view_tried t) }
{
    let [which, number, rms] = outcome_words(t.outcome);
    [which, number, rms, u64::from(t.beyond)]
}
