// A state read from its words. A word that is not there is 0.
ghost use Rattle.std.specs.Prelude.{◌≡◌, get_or};
ghost use Rattle.pick.specs.Run.{view_best, view_state};
ghost use Rattle.words.specs.Words.{small_at, number_at, flag_at, winner_in, options_in, run_of};

use booking::Counts;
use estimator::Estimator;
use pick::{State, Winner};
use records::RansacOptions;

fn word_at(words: &[u64], i: usize) -> u64
    ensures { result ≡ get_or words.now i 0 }
{
    words.get(i).copied().unwrap_or(0)
}

fn small_at(words: &[u64], i: usize) -> u32
    ensures { result ≡ small_at words.now i }
{
    (word_at(words, i) % 0x1_0000_0000) as u32
}

pub fn number_at(words: &[u64], i: usize) -> f64
    ensures { result ≡ number_at words.now i }
{
    fields::double_of(word_at(words, i))
}

fn flag_at(words: &[u64], i: usize) -> bool
    ensures { result ≡ flag_at words.now i }
{
    word_at(words, i) != 0
}

#[tactic(auto, unfolding(crate::specs::Words::winner_in))]
fn winner_in<M: Copy>(words: &[u64], model: M) -> Option<Winner<M>>
    ensures { view_best result ≡ winner_in model words.now }
{
    flag_at(words, 11).then(|| Winner {
        model,
        count: small_at(words, 12),
        rms: number_at(words, 14),
        number: small_at(words, 13),
    })
}

#[tactic(auto, unfolding(crate::specs::Words::options_in))]
fn options_in(words: &[u64], ratio: usize) -> RansacOptions
    ensures { result ≡ options_in ratio words.now }
{
    RansacOptions {
        thresh: number_at(words, 0),
        confidence: number_at(words, 1),
        max_iters: small_at(words, 2),
        min_inliers: small_at(words, 3),
        refit: flag_at(words, 4),
        ratio: number_at(words, ratio),
    }
}

// The state, by the family's value and the winner's model: its numbers are the words from 15 on.
#[tactic(auto, unfolding(crate::specs::Words::run_of))]
pub fn state_in<E: Estimator>(words: &[u64], e: E, model: E::Model) -> State<E, E::Model>
    ensures { view_state result ≡ run_of E.family e model words.now }
{
    State {
        estimator: e,
        options: options_in(words, 15 + E::SIZE),
        n: word_at(words, 5) as usize,
        counts: Counts {
            read: small_at(words, 6),
            empty: small_at(words, 7),
            few: small_at(words, 8),
            scored: small_at(words, 9),
            bound: small_at(words, 10),
        },
        winner: winner_in(words, model),
    }
}
