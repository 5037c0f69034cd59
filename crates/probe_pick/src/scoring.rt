// Measuring and scoring for the comparison: a model as nine numbers, and lists as they are.
ghost use Rattle.std.specs.Prelude.{◌≡◌, map};
ghost use Rattle.rule.specs.Lists.{filled};
ghost use Rattle.root.specs.Root.{root_of};
ghost use Rattle.book.specs.Score.{count_in, squares_in, rms_of};
ghost use Rattle.estimator.specs.Family.{squares_of};
ghost use Rattle.sheet.specs.Sheets.{sheet, no_camera};
ghost use Rattle.measure.specs.Found.{beyond_found};
ghost use Rattle.score.specs.Places.{index_count, indexed};
ghost use Rattle.score.specs.Less.{less_of};
ghost use Rattle.words.specs.Calls.{if_counted};
ghost use Rattle.probe_pick.specs.Scoring.{model_of, below_of};

use sheet::{Model, Sheet};

#[unsafe(no_mangle)]
pub extern "C" fn probe_squared_residuals(
    h0: f64,
    h1: f64,
    h2: f64,
    h3: f64,
    h4: f64,
    h5: f64,
    h6: f64,
    h7: f64,
    h8: f64,
    ratio: f64,
    marks: &[f64],
    squares: &mut [f64],
    counting: bool,
) -> usize
    ensures value { result ≡ if_counted counting (beyond_found sheet no_camera marks.now (model_of h0 h1 h2 h3 h4 h5 h6 h7 h8) squares.old) }
    ensures squares_after { squares.new ≡ filled (squares_of sheet no_camera ratio marks.now (model_of h0 h1 h2 h3 h4 h5 h6 h7 h8)) squares.old }
{
    let h = Model::from([h0, h1, h2, h3, h4, h5, h6, h7, h8]);
    let beyond = measure::squared_residuals(Sheet, h, ratio, marks, squares);
    if counting { beyond } else { 0 }
}

#[unsafe(no_mangle)]
pub extern "C" fn probe_count_inliers(thresh: f64, squares: &[f64]) -> usize
    ensures { result ≡ count_in thresh (map root_of squares.now) }
{
    score::count_inliers(thresh, squares)
}

#[unsafe(no_mangle)]
pub extern "C" fn probe_rms(thresh: f64, squares: &[f64], count: u32) -> f64
    ensures { result ≡ rms_of count (squares_in thresh (map root_of squares.now)) }
{
    score::rms(thresh, squares, count)
}

// A NaN where it is not below: no root mean square is one.
#[tactic(auto, using(rule::proofs::Nan::nan_bits_lem))]
#[unsafe(no_mangle)]
pub extern "C" fn probe_rms_if_less(thresh: f64, squares: &[f64], count: u32, best: f64) -> f64
    ensures { result ≡ below_of (less_of (rms_of count (squares_in thresh (map root_of squares.now))) best) }
{
    score::rms_if_less(thresh, squares, count, best).unwrap_or(f64::NAN)
}

#[unsafe(no_mangle)]
pub extern "C" fn probe_write_inliers(thresh: f64, squares: &[f64], indices: &mut [u32]) -> usize
    ensures value { result ≡ index_count thresh (map root_of squares.now) indices.old }
    ensures indices_after { indices.new ≡ indexed thresh (map root_of squares.now) indices.old }
{
    score::write_inliers(thresh, squares, indices)
}
