// The whole run for a table's C program (document 01, 'Winner'): options, marks, stops and trials as
// bytes, and two lent outputs. Everything is decoded once and the marks are tested once; then each
// trial costs a walk over the marks for each model that is counted, and one over their squares. Roots
// are taken for a trial that may win.
#![tactic(auto)]

ghost use Rattle.std.specs.Prelude.{◌≡◌, ◌*◌, ◌%◌, ◌≤◌, length};
ghost use Rattle.rule.specs.Answer.{told, refusal_in};
ghost use Rattle.rule.specs.Order.{first_failed};
ghost use Rattle.estimator.specs.Marks.{run_tests};
ghost use Rattle.sheet.specs.Marks.{marks_of};
ghost use Rattle.sheet.specs.Sheets.{sheet};
ghost use Rattle.records.specs.Options.{options_of, options_tests};
ghost use Rattle.records.specs.Marks.{numbers_in};
ghost use Rattle.pick.specs.Run.{view_winner};
ghost use Rattle.salghemu.specs.Whole.{later_tests, stop_of, records_in, view_ran, winner_bytes, index_bytes, laid_over, later_answer, run_answer, Gave};

use fields::Field;
use judge::Call;
use pick::{State, Winner};
use records::RansacOptions;
use rule::Refusal;
use sheet::{Model, Sheet};

// Reads trials to the bound, the end of the list or the first that is refused. The marks are tested.
#[tactic(auto, using(crate::proofs::Going::going))]
fn read_trials(
    o: RansacOptions,
    marks: &[f64],
    stops: &[u32],
    trials: &[u8],
) -> Result<State<Sheet, Model>, Refusal>
    requires options_pass { 0 ≡ first_failed (options_tests o) }
    requires marks_pass { 0 ≡ first_failed (run_tests sheet marks.now) }
    ensures { view_ran result ≡ stop_of o (length (marks_of marks.now)) marks.now stops.now (records_in trials.now) }
{
    // no heap, so there is a place for each mark of the longest run
    let mut squares = [0.0; 2000];
    let mut s = pick::fresh_run(Sheet, o, estimator::mark_count::<Sheet>(marks));
    let (parts, _) = trials.as_chunks::<152>();
    for bytes in parts {
        if s.counts.bound <= s.counts.read {
            return Ok(s);
        }
        let call = Call {
            bytes,
            marks,
            stops,
        };
        s = pick::advance(s, call, &mut squares)?;
    }
    Ok(s)
}

// The winner's record, to the front of a list that has room for it.
#[tactic(auto, using(crate::proofs::Giving::winner_laid))]
fn put_winner(out: &mut [u8], w: Winner<Model>)
    requires { 88 ≤ length out.old }
    ensures { out.new ≡ laid_over (winner_bytes (view_winner w)) out.old }
{
    fields::write_all(&[w.count, w.number], &mut out[0..8]);
    w.rms.put_to(&mut out[8..16]);
    fields::write_all(&w.model.numbers(), &mut out[16..88]);
}

// The tests after the marks' length, in order: refused with 6, 7, 18, 8, 1 or 9. (The marks' own test looks
// at their length again, and passes it.)
#[tactic(auto, unfolding(rule::specs::Order::first_failed, rule::specs::Order::room, crate::specs::Whole::later_tests, crate::specs::Whole::stop_bytes, crate::specs::Whole::trial_bytes), using(crate::proofs::Chain::tested))]
fn check_later(
    numbers: &[f64],
    stops: &[u8],
    trials: &[u8],
    winner: &[u8],
    indices: &[u8],
) -> Result<(), Refusal>
    requires numbers_len { length numbers.now % 4 ≡ 0 }
    requires numbers_len_bound { length numbers.now ≤ 8000 }
    ensures { refusal_in result ≡ first_failed (later_tests numbers.now (length (marks_of numbers.now)) (length stops.now) (length trials.now) (length winner.now) (length indices.now)) }
{
    estimator::check_run::<Sheet>(numbers)?;
    let n = estimator::mark_count::<Sheet>(numbers);
    if stops.len() != 4 * (n + 1) {
        return Err(Refusal::Stops);
    }
    if trials.len() % 152 != 0 {
        return Err(Refusal::Record);
    }
    if winner.len() < 88 || indices.len() < 4 * n {
        return Err(Refusal::Room);
    }
    Ok(())
}

// The winner over marks of the right length, decoded, if the lent outputs have room for what it gives.
// (The lists as C hands them over, here and where what it gives is written.)
#[tactic(auto, using(std::proofs::lemmas::Grind::common_steps, crate::proofs::Chain::later), unfolding(crate::specs::Whole::later_answer, crate::specs::Whole::after_tests, crate::specs::Whole::result_of, crate::specs::Whole::won_by))]
fn won(
    o: RansacOptions,
    numbers: &[f64],
    stops: &[u8],
    trials: &[u8],
    winner: &[u8],
    indices: &[u8],
) -> Result<Winner<Model>, Refusal>
    requires options_pass { 0 ≡ first_failed (options_tests o) }
    requires numbers_len { length numbers.now % 4 ≡ 0 }
    requires numbers_len_bound { length numbers.now ≤ 8000 }
    ensures { told view_winner result ≡ later_answer o numbers.now (length (marks_of numbers.now)) stops.now trials.now (length winner.now) (length indices.now) }
{
    check_later(numbers, stops, trials, winner, indices)?;
    // no heap, so there is a place for each stop entry of the longest run
    let mut entries = [0; 2001];
    fields::read_words(stops, &mut entries);
    let n = estimator::mark_count::<Sheet>(numbers);
    let last = read_trials(o, numbers, &entries[..n + 1], trials)?;
    last.winner.ok_or(Refusal::NoWinner)
}

// Writes what a winner gives: its record, and the indices of its marks, four bytes each.
#[tactic(auto, using(std::proofs::lemmas::Grind::common_steps, crate::proofs::Giving::indices_count, crate::proofs::Giving::indices_first, crate::proofs::Giving::indices_laid))]
fn give(o: RansacOptions, w: Winner<Model>, numbers: &[f64], winner: &mut [u8], indices: &mut [u8])
    requires numbers_len_bound { length numbers.now ≤ 8000 }
    requires in_bounds { 88 ≤ length winner.old }
    requires numbers_in_bounds { 4 * length (marks_of numbers.now) ≤ length indices.old }
    ensures winner_after { winner.new ≡ laid_over (winner_bytes (view_winner w)) winner.old }
    ensures indices_after { indices.new ≡ laid_over (index_bytes o numbers.now w.model) indices.old }
{
    put_winner(winner, w);
    // no heap, so there is a place for each mark of the longest run
    let mut squares = [0.0; 2000];
    let mut places = [0; 2000];
    let count = judge::write_inliers(Sheet, o, w.model, numbers, &mut squares, &mut places);
    fields::write_all(&places[..count], indices);
}

// What the winner over marks of the right length, decoded, gives written; or the refusal and nothing
// written. (A function of its own: within the whole run LLVM leaves `give` out of line, whose lists then
// take 24,000 bytes of stack more.)
#[tactic(auto, using(crate::proofs::Chain::winner_fits, crate::proofs::Chain::indices_fit), unfolding(crate::specs::Whole::number_of, crate::specs::Whole::written))]
fn give_winner(
    o: RansacOptions,
    numbers: &[f64],
    stops: &[u8],
    trials: &[u8],
    winner: &mut [u8],
    indices: &mut [u8],
) -> Result<(), Refusal>
    requires options_pass { 0 ≡ first_failed (options_tests o) }
    requires numbers_len { length numbers.now % 4 ≡ 0 }
    requires numbers_len_bound { length numbers.now ≤ 8000 }
    ensures { Gave (later_answer o numbers.now (length (marks_of numbers.now)) stops.now trials.now (length winner.old) (length indices.old)) o numbers.now winner.old indices.old (refusal_in result) winner.new indices.new }
{
    let w = won(o, numbers, stops, trials, winner, indices)?;
    give(o, w, numbers, winner, indices);
    Ok(())
}

// The whole run: the winner written, or the refusal and nothing written.
#[tactic(auto, using(crate::proofs::Chain::whole), unfolding(rule::specs::Order::first_failed, rule::specs::Order::decided, records::specs::Options::options_answer, records::specs::Options::options_record, records::specs::Marks::mark_bytes, crate::specs::Whole::number_of, crate::specs::Whole::written))]
pub fn salghemu_run(
    options: &[u8],
    marks: &[u8],
    stops: &[u8],
    trials: &[u8],
    winner: &mut [u8],
    indices: &mut [u8],
) -> Result<(), Refusal>
    ensures { Gave (run_answer (record { options = options.now; marks = marks.now; stops = stops.now; trials = trials.now }) (length winner.old) (length indices.old)) (options_of options.now) (numbers_in 4 marks.now) winner.old indices.old (refusal_in result) winner.new indices.new }
{
    let o = records::read_options(options)?;
    records::validate(o)?;
    // no heap, so there are four places for each mark of the longest run
    let mut room = [0.0; 8000];
    let n = records::read_marks::<Sheet>(marks, &mut room)?;
    give_winner(o, &room[..n], stops, trials, winner, indices)
}
