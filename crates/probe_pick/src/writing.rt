// A sheet's state as its 25 words, and a trial's answer as its 29.
ghost use Rattle.std.specs.Prelude.{◌≡◌};
ghost use Rattle.book.specs.Book.{held};
ghost use Rattle.sheet.specs.Sheets.{sheet};
ghost use Rattle.pick.specs.Run.{view_winner, view_best, view_state, view_tried};
ghost use Rattle.words.specs.Words.{winner_words};
ghost use Rattle.probe_pick.specs.Words.{state_words, answer_words};

use pick::{State, Tried, Winner};
use sheet::{Model, Sheet};

#[tactic(auto, unfolding(words::specs::Words::winner_words))]
fn held_words(w: Winner<Model>) -> [u64; 13]
    ensures { result ≡ winner_words sheet (held (view_winner w)) }
{
    let mut words = [0; 13];
    words[..4].copy_from_slice(&words::held_words(w));
    words[4..].copy_from_slice(&words::number_words(w.model.numbers()));
    words
}

#[tactic(auto, unfolding(words::specs::Words::winner_words))]
fn winner_words(best: Option<Winner<Model>>) -> [u64; 13]
    ensures { result ≡ winner_words sheet (view_best best) }
{
    best.map_or([0; 13], held_words)
}

// A state's words. (The ratio's, the last, before the winner's: the other way round the check doesn't
// find the list. So in a trial's.)
// Inlined, since the compiler has the C library's memcpy copy an array of so many words that is handed back.
#[tactic(auto, unfolding(words::specs::Words::run_words))]
#[inline(always)]
pub(crate) fn state_words(s: State<Sheet, Model>) -> [u64; 25]
    ensures { result ≡ state_words (view_state s) }
{
    let options = words::made_words(s.options);
    let mut words = [0; 25];
    words[..5].copy_from_slice(&options[..5]);
    words[5..11].copy_from_slice(&words::count_words(s));
    words[24] = options[5];
    words[11..24].copy_from_slice(&winner_words(s.winner));
    words
}

// A trial's: the new state's, the outcome's and the number beyond.
#[tactic(auto, unfolding(words::specs::Words::tried_words))]
pub(crate) fn tried_words(t: Tried<Sheet, Model>) -> [u64; 29]
    ensures { result ≡ answer_words (view_tried t) }
{
    let mut words = [0; 29];
    words[25..].copy_from_slice(&words::told_words(t));
    words[..25].copy_from_slice(&state_words(t.state));
    words
}
