// What a change of the refusals' order does to the answers: `specs/` has each order as it was and says which
// calls are answered otherwise since, of every entry that has the tests in question, and that the others'
// orders are as they were (document 02, order 7). The functions of theorems.rt promise that. Those here only
// call through: each promises that it is refused by the first test of its order that fails, so that a weaker
// contract of an entry breaks this crate.
#![tactic(auto)]

ghost use Rattle.std.specs.Prelude.{◌≡◌, length};
ghost use Rattle.rule.specs.Answer.{refusal_in};
ghost use Rattle.rule.specs.Order.{first_failed};
ghost use Rattle.estimator.specs.Marks.{marks_tests};
ghost use Rattle.sheet.specs.Sheets.{sheet};
ghost use Rattle.linalg.specs.Normalize.{normalize_tests};
ghost use Rattle.linalg_3d.specs.Normalize.{normalize_tests as form_normalize_tests};
ghost use Rattle.judge.specs.Judging.{call_of};
ghost use Rattle.book.specs.Calls.{number_in};
ghost use Rattle.pick.specs.Run.{view_state, view_outcome};
ghost use Rattle.pick.specs.Opening.{opening_tests};
ghost use Rattle.form_records.specs.Camera.{records_tests};
ghost use Rattle.homography.specs.Rows.{rows_tests};
ghost use Rattle.dlt.specs.Rows.{rows_tests as form_rows_tests};
ghost use Rattle.salghemu.specs.Whole.{run_tests};
ghost use Rattle.orders.specs.ShortFirst.{record_order, trial_order, indices_order, RefusedBy};

mod theorems;

use estimator::Estimator;
use form::{Camera, Model};
use judge::Call;
use linalg::Normalized;
use pick::{State, Tried};
use records::RansacOptions;
use rule::Refusal;
use sheet::Points;
pub use theorems::{order_7, order_7_of_family};

#[tactic(auto, using(crate::proofs::Told::told_number), unfolding(pick::specs::Opening::opening_answer))]
pub fn open<E: Estimator>(
    e: E,
    o: RansacOptions,
    marks: &[f64],
    stops: &[u32],
) -> Result<State<E, E::Model>, Refusal>
    ensures { refusal_in result ≡ first_failed (opening_tests E.family e o marks.now stops.now) }
{
    pick::open(e, o, marks, stops)
}

#[tactic(auto, using(crate::proofs::Told::told_number), unfolding(pick::specs::Opening::record_answer, crate::specs::ShortFirst::record_order))]
pub fn open_record<E: Estimator>(
    e: E,
    bytes: &[u8],
    marks: &[f64],
    stops: &[u32],
) -> Result<State<E, E::Model>, Refusal>
    ensures { refusal_in result ≡ first_failed (record_order E.family e bytes.now marks.now stops.now) }
{
    pick::open_record(e, bytes, marks, stops)
}

#[tactic(auto, using(crate::proofs::Told::told_number), unfolding(form_records::specs::Camera::records_answer))]
pub fn open_records(
    options: &[u8],
    camera: &[u8],
    marks: &[f64],
    stops: &[u32],
) -> Result<State<Camera, Model>, Refusal>
    ensures { refusal_in result ≡ first_failed (records_tests options.now camera.now marks.now stops.now) }
{
    form_records::open_records(options, camera, marks, stops)
}

#[tactic(auto, using(crate::proofs::Told::trial_refused))]
pub fn trial<E: Estimator>(s: State<E, E::Model>, call: Call) -> Tried<E, E::Model>
    ensures { number_in (view_outcome result.outcome) ≡ first_failed (trial_order E.family (view_state s) (call_of call.entry)) }
{
    pick::trial(s, call)
}

#[tactic(auto, using(crate::proofs::Told::indices_refused))]
pub fn winner_indices<E: Estimator>(
    s: State<E, E::Model>,
    marks: &[f64],
    indices: &mut [u32],
) -> Result<usize, Refusal>
    ensures { refusal_in result ≡ first_failed (indices_order E.family (view_state s) marks.now (length indices.old)) }
{
    pick::winner_indices(s, marks, indices)
}

/// Where none of these tests fails, the trials decide: a refused one, or that none wins.
#[tactic(auto, using(crate::proofs::Told::run_refused))]
pub fn run(
    options: &[u8],
    marks: &[u8],
    stops: &[u8],
    trials: &[u8],
    winner: &mut [u8],
    indices: &mut [u8],
) -> Result<(), Refusal>
    ensures { RefusedBy (run_tests (record { options = options.now; marks = marks.now; stops = stops.now; trials = trials.now }) (length winner.old) (length indices.old)) (refusal_in result) }
{
    salghemu::salghemu_run(options, marks, stops, trials, winner, indices)
}

pub fn rows(marks: &[f64], rows: &mut [f64]) -> Result<(), Refusal>
    ensures { refusal_in result ≡ first_failed (rows_tests marks.now (length rows.old)) }
{
    homography::dlt_rows(marks, rows)
}

pub fn form_rows(marks: &[f64], rows: &mut [f64]) -> Result<(), Refusal>
    ensures { refusal_in result ≡ first_failed (form_rows_tests marks.now (length rows.old)) }
{
    dlt::dlt_rows(marks, rows)
}

/// Normalising of one side of a sheet's marks; it has no 7.
#[tactic(auto, using(crate::proofs::Told::answered_number), unfolding(linalg::specs::Normalize::normalize_answer))]
pub fn normalize(points: Points, lent: &mut [f64]) -> Result<Normalized, Refusal>
    ensures { refusal_in result ≡ first_failed (normalize_tests points.entry.marks.now points.entry.side (length lent.old)) }
{
    linalg::normalize_points_2d(points, lent)
}

/// Normalising of a form's marks, likewise.
#[tactic(auto, using(crate::proofs::Told::answered_number), unfolding(linalg_3d::specs::Normalize::normalize_answer))]
pub fn form_normalize(marks: &[f64], lent: &mut [f64]) -> Result<linalg_3d::Normalized, Refusal>
    ensures { refusal_in result ≡ first_failed (form_normalize_tests marks.now (length lent.old)) }
{
    linalg_3d::normalize_points_3d(marks, lent)
}

/// The test for a line, likewise.
#[tactic(auto, using(crate::proofs::Told::answered_number), unfolding(line::specs::Collinear::collinear_answer))]
pub fn collinear(points: Points) -> Result<bool, Refusal>
    ensures { refusal_in result ≡ first_failed (marks_tests sheet points.entry.marks.now) }
{
    line::points_are_collinear(points)
}
