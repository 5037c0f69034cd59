// The form's entries over marks for the comparison, and its measuring: lists as they are, a camera as
// plain numbers, and a candidate and a mark as lists.
ghost use Rattle.std.specs.Prelude.{◌≡◌};
ghost use Rattle.rule.specs.Lists.{filled};
ghost use Rattle.estimator.specs.Family.{squares_of};
ghost use Rattle.estimator.specs.Entry.{distance_answer};
ghost use Rattle.flat.specs.Flat.{measure_told, value_of};
ghost use Rattle.form.specs.Marks.{mark_at};
ghost use Rattle.form.specs.Distance.{model_of};
ghost use Rattle.form.specs.Forms.{form};
ghost use Rattle.measure.specs.Found.{beyond_found};
ghost use Rattle.words.specs.Calls.{if_counted};
ghost use Rattle.probe_form.specs.Plain.{camera_by, Written, MatrixEntry, RowsTold};

use form::{Camera, Model};
use std::array;

#[tactic(auto, using(flat::proofs::Decided::number_decided), unfolding(linalg_3d::specs::Normalize::normalize_answer))]
#[unsafe(no_mangle)]
pub extern "C" fn probe_form_normalize_points_3d(marks: &[f64], points: &mut [f64]) -> u32
    ensures { Written marks.now points.old result points.new }
{
    rule::number(linalg_3d::normalize_points_3d(marks, points))
}

// The same call, for the entry of the matrix at `place`, row by row: 0 where it is refused, and a NaN
// behind the sixteenth.
#[tactic(auto, using(crate::proofs::Cells::cell_beyond, crate::proofs::Cells::cell_inside, crate::proofs::Cells::cell_refused))]
#[unsafe(no_mangle)]
pub extern "C" fn probe_form_normalize_matrix(marks: &[f64], points: &mut [f64], place: u32) -> f64
    ensures { MatrixEntry marks.now points.old place result points.new }
{
    let answer = linalg_3d::normalize_points_3d(marks, points);
    if place >= 16 {
        return flat::none();
    }
    match answer {
        Ok(normalized) => {
            let row = normalized.matrix[(place / 4) as usize];
            row.cells[(place % 4) as usize]
        }
        Err(_) => 0.0,
    }
}

#[unsafe(no_mangle)]
pub extern "C" fn probe_form_dlt_rows(marks: &[f64], rows: &mut [f64]) -> u32
    ensures { RowsTold marks.now rows.old result rows.new }
{
    rule::number(dlt::dlt_rows(marks, rows))
}

// The candidate of a list of twelve numbers.
fn model_of(numbers: &[f64]) -> Model
    ensures { result ≡ model_of numbers.now }
{
    Model::from(array::from_fn(|i| { numbers.get(i).copied().unwrap_or(0.0) }))
}

#[unsafe(no_mangle)]
pub extern "C" fn probe_form_distance_told(
    model: &[f64],
    fx: f64,
    fy: f64,
    cx: f64,
    cy: f64,
    mark: &[f64],
    ratio: f64,
) -> u32
    ensures { result ≡ measure_told (distance_answer form (camera_by fx fy cx cy) ratio (model_of model.now) (mark_at mark.now 0)) }
{
    let camera = Camera { fx, fy, cx, cy };
    flat::told(form::distance(camera, model_of(model), form::mark_at(mark, 0), ratio))
}

#[unsafe(no_mangle)]
pub extern "C" fn probe_form_distance(
    model: &[f64],
    fx: f64,
    fy: f64,
    cx: f64,
    cy: f64,
    mark: &[f64],
    ratio: f64,
) -> f64
    ensures { result ≡ value_of (distance_answer form (camera_by fx fy cx cy) ratio (model_of model.now) (mark_at mark.now 0)) }
{
    let camera = Camera { fx, fy, cx, cy };
    flat::value(form::distance(camera, model_of(model), form::mark_at(mark, 0), ratio))
}

// The square of each mark's distance to the front of the lent list, and how many marks are beyond: 0
// where they aren't counted.
#[unsafe(no_mangle)]
pub extern "C" fn probe_form_squared_residuals(
    model: &[f64],
    fx: f64,
    fy: f64,
    cx: f64,
    cy: f64,
    ratio: f64,
    marks: &[f64],
    squares: &mut [f64],
    counting: bool,
) -> usize
    ensures value { result ≡ if_counted counting (beyond_found form (camera_by fx fy cx cy) marks.now (model_of model.now) squares.old) }
    ensures squares_after { squares.new ≡ filled (squares_of form (camera_by fx fy cx cy) ratio marks.now (model_of model.now)) squares.old }
{
    let camera = Camera { fx, fy, cx, cy };
    let beyond = measure::squared_residuals(camera, model_of(model), ratio, marks, squares);
    if counting { beyond } else { 0 }
}
