// The picker's entries for the comparison with the Rust, over sheets: each one exported with plain
// numbers, over the C calling convention. A state is handed in and out as 25 words.
#![tactic(auto)]

mod reading;
mod scoring;
mod writing;

ghost use Rattle.std.specs.Prelude.{◌≡◌, [], ◌∷◌, cond, eqb, length};
ghost use Rattle.rule.specs.Lists.{filled};
ghost use Rattle.rule.specs.Order.{first_failed};
ghost use Rattle.sheet.specs.Sheets.{sheet, no_camera};
ghost use Rattle.records.specs.Marks.{mark_bytes, numbers_after};
ghost use Rattle.records.specs.Options.{usual_options};
ghost use Rattle.pick.specs.Opening.{opening_answer, record_answer};
ghost use Rattle.pick.specs.Trial.{trial_answer};
ghost use Rattle.pick.specs.Indices.{indices_answer, indices_after};
ghost use Rattle.words.specs.Words.{made_words};
ghost use Rattle.words.specs.Calls.{NO_WORDS, options_of, put_number, opened_number, opened_after, tried_number, tried_after, listed_number, listed_after};
ghost use Rattle.probe_pick.specs.Words.{state_words, answer_words, state_in};

use judge::Call;
use records::RansacOptions;
use sheet::Sheet;

#[unsafe(no_mangle)]
pub extern "C" fn probe_open(options: &[u8], marks: &[f64], stops: &[u32], state: &mut [u64]) -> u32
    ensures value { result ≡ opened_number 25 (record_answer sheet no_camera options.now marks.now stops.now) state.old }
    ensures state_after { state.new ≡ opened_after state_words (record_answer sheet no_camera options.now marks.now stops.now) state.old }
{
    let opened = pick::open_record(Sheet, options, marks, stops);
    words::put_opened(opened.map(writing::state_words), state)
}

#[unsafe(no_mangle)]
pub extern "C" fn probe_open_options(
    thresh: f64,
    confidence: f64,
    max_iters: u32,
    min_inliers: u32,
    refit: bool,
    ratio: f64,
    marks: &[f64],
    stops: &[u32],
    state: &mut [u64],
) -> u32
    ensures value { result ≡ opened_number 25 (opening_answer sheet no_camera (options_of thresh confidence max_iters min_inliers refit ratio) marks.now stops.now) state.old }
    ensures state_after { state.new ≡ opened_after state_words (opening_answer sheet no_camera (options_of thresh confidence max_iters min_inliers refit ratio) marks.now stops.now) state.old }
{
    let options = RansacOptions {
        thresh,
        confidence,
        max_iters,
        min_inliers,
        refit,
        ratio,
    };
    let opened = pick::open(Sheet, options, marks, stops);
    words::put_opened(opened.map(writing::state_words), state)
}

// The options with their defaults: a state's first five words, and the ratio's.
#[unsafe(no_mangle)]
pub extern "C" fn probe_new_options(thresh: f64, state: &mut [u64]) -> u32
    ensures value { result ≡ put_number 6 state.old }
    ensures state_after { state.new ≡ filled (made_words (usual_options thresh)) state.old }
{
    words::put(&words::made_words(RansacOptions::new(thresh)), state)
}

// A trial: the new state's words, then which outcome, the refusal's number or the count, the root mean
// square, and the number beyond.
#[unsafe(no_mangle)]
pub extern "C" fn probe_trial(
    state: &[u64],
    bytes: &[u8],
    marks: &[f64],
    stops: &[u32],
    out: &mut [u64],
) -> u32
    ensures value { result ≡ tried_number 25 state.now out.old }
    ensures out_after { out.new ≡ tried_after 25 state.now (answer_words (trial_answer sheet (state_in state.now) (record { bytes = bytes.now; marks = marks.now; stops = stops.now }))) out.old }
{
    // The room too, so that a trial whose words have none isn't tried.
    if state.len() < 25 || out.len() < 29 {
        return words::NO_WORDS;
    }
    let call = Call {
        bytes,
        marks,
        stops,
    };
    let tried = pick::trial(reading::state_in(state), call);
    words::put(&writing::tried_words(tried), out)
}

// How many indices are written; 2^32 and the number of the refusal; 2^33 where there is no state.
#[unsafe(no_mangle)]
pub extern "C" fn probe_winner_indices(state: &[u64], marks: &[f64], indices: &mut [u32]) -> u64
    ensures value { result ≡ listed_number 25 state.now (indices_answer sheet (state_in state.now) marks.now indices.old) }
    ensures indices_after { indices.new ≡ listed_after 25 state.now (indices_after sheet (state_in state.now) marks.now indices.old) indices.old }
{
    if state.len() < 25 {
        return words::NO_STATE;
    }
    words::indexed(pick::winner_indices(reading::state_in(state), marks, indices))
}

// The numbers of a mark file to a list of 8,000 places: 0, or the number of the refusal. A list of another
// length can't be lent.
#[unsafe(no_mangle)]
pub extern "C" fn probe_read_marks(bytes: &[u8], numbers: &mut [f64]) -> u32
    ensures value { result ≡ cond (eqb (length numbers.old) 8000) (first_failed (mark_bytes 4 bytes.now ∷ [])) NO_WORDS }
    ensures numbers_after { numbers.new ≡ cond (eqb (length numbers.old) 8000) (numbers_after 4 bytes.now numbers.old) numbers.old }
{
    match numbers.as_mut_array::<8000>() {
        Some(list) => rule::number(records::read_marks::<Sheet>(bytes, list)),
        None => words::NO_WORDS,
    }
}
