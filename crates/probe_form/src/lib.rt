// The picker's entries for the comparison with the Rust, over standing forms: each one exported with plain
// numbers, over the C calling convention. A state is handed in and out as 32 words, a candidate and a mark
// as lists of which a number that is not there is 0.
#![tactic(auto)]

mod geometry;
mod reading;
mod writing;

ghost use Rattle.std.specs.Prelude.{◌≡◌, [], ◌∷◌, cond, eqb, length};
ghost use Rattle.rule.specs.Order.{first_failed};
ghost use Rattle.form.specs.Forms.{form};
ghost use Rattle.form_records.specs.Camera.{records_answer};
ghost use Rattle.records.specs.Marks.{mark_bytes, numbers_after};
ghost use Rattle.pick.specs.Opening.{opening_answer};
ghost use Rattle.pick.specs.Trial.{trial_answer};
ghost use Rattle.pick.specs.Indices.{indices_answer, indices_after};
ghost use Rattle.words.specs.Calls.{NO_WORDS, options_of, opened_number, opened_after, tried_number, tried_after, listed_number, listed_after};
ghost use Rattle.probe_form.specs.Words.{state_words, answer_words, state_in};
ghost use Rattle.probe_form.specs.Plain.{camera_by};

use form::Camera;
use judge::Call;
use records::RansacOptions;

#[unsafe(no_mangle)]
pub extern "C" fn probe_form_open(
    options: &[u8],
    camera: &[u8],
    marks: &[f64],
    stops: &[u32],
    state: &mut [u64],
) -> u32
    ensures value { result ≡ opened_number 32 (records_answer options.now camera.now marks.now stops.now) state.old }
    ensures state_after { state.new ≡ opened_after state_words (records_answer options.now camera.now marks.now stops.now) state.old }
{
    let opened = form_records::open_records(options, camera, marks, stops);
    words::put_opened(opened.map(writing::state_words), state)
}

#[unsafe(no_mangle)]
pub extern "C" fn probe_form_open_options(
    thresh: f64,
    confidence: f64,
    max_iters: u32,
    min_inliers: u32,
    refit: bool,
    ratio: f64,
    fx: f64,
    fy: f64,
    cx: f64,
    cy: f64,
    marks: &[f64],
    stops: &[u32],
    state: &mut [u64],
) -> u32
    ensures value { result ≡ opened_number 32 (opening_answer form (camera_by fx fy cx cy) (options_of thresh confidence max_iters min_inliers refit ratio) marks.now stops.now) state.old }
    ensures state_after { state.new ≡ opened_after state_words (opening_answer form (camera_by fx fy cx cy) (options_of thresh confidence max_iters min_inliers refit ratio) marks.now stops.now) state.old }
{
    let options = RansacOptions {
        thresh,
        confidence,
        max_iters,
        min_inliers,
        refit,
        ratio,
    };
    let opened = pick::open(Camera { fx, fy, cx, cy }, options, marks, stops);
    words::put_opened(opened.map(writing::state_words), state)
}

// A trial: the new state's words, then which outcome, the refusal's number or the count, the root mean
// square, and the number beyond.
#[unsafe(no_mangle)]
pub extern "C" fn probe_form_trial(
    state: &[u64],
    bytes: &[u8],
    marks: &[f64],
    stops: &[u32],
    out: &mut [u64],
) -> u32
    ensures value { result ≡ tried_number 32 state.now out.old }
    ensures out_after { out.new ≡ tried_after 32 state.now (answer_words (trial_answer form (state_in state.now) (record { bytes = bytes.now; marks = marks.now; stops = stops.now }))) out.old }
{
    if state.len() < 32 {
        return words::NO_WORDS;
    }
    let call = Call {
        bytes,
        marks,
        stops,
    };
    let tried = pick::trial(reading::state_in(state), call);
    words::put(&writing::tried_words(tried), out)
}

// How many indices are written; 2^32 and the number of the refusal; 2^33 where there is no state.
#[unsafe(no_mangle)]
pub extern "C" fn probe_form_winner_indices(
    state: &[u64],
    marks: &[f64],
    indices: &mut [u32],
) -> u64
    ensures value { result ≡ listed_number 32 state.now (indices_answer form (state_in state.now) marks.now indices.old) }
    ensures indices_after { indices.new ≡ listed_after 32 state.now (indices_after form (state_in state.now) marks.now indices.old) indices.old }
{
    if state.len() < 32 {
        return words::NO_STATE;
    }
    words::indexed(pick::winner_indices(reading::state_in(state), marks, indices))
}

// The numbers of a mark file to a list of 8,000 places: 0, or the number of the refusal. A list of another
// length can't be lent.
#[unsafe(no_mangle)]
pub extern "C" fn probe_form_read_marks(bytes: &[u8], numbers: &mut [f64]) -> u32
    ensures value { result ≡ cond (eqb (length numbers.old) 8000) (first_failed (mark_bytes 5 bytes.now ∷ [])) NO_WORDS }
    ensures numbers_after { numbers.new ≡ cond (eqb (length numbers.old) 8000) (numbers_after 5 bytes.now numbers.old) numbers.old }
{
    match numbers.as_mut_array::<8000>() {
        Some(list) => rule::number(records::read_marks::<Camera>(bytes, list)),
        None => words::NO_WORDS,
    }
}
