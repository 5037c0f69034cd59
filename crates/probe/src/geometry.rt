// The entries over marks for the comparison: lists as they are, a side and a place by number, and a
// model and a mark as plain numbers.
ghost use Rattle.std.specs.Prelude.{◌≡◌};
ghost use Rattle.rule.specs.Answer.{gives};
ghost use Rattle.estimator.specs.Family.{measure_of};
ghost use Rattle.estimator.specs.Entry.{distance_answer};
ghost use Rattle.sheet.specs.Marks.{side_of};
ghost use Rattle.sheet.specs.Distance.{projection_of};
ghost use Rattle.sheet.specs.Sheets.{sheet, no_camera};
ghost use Rattle.line.specs.Collinear.{collinear_answer};
ghost use Rattle.flat.specs.Flat.{measure_told, value_of};
ghost use Rattle.probe.specs.Flat.{told_of, part_of};
ghost use Rattle.probe.specs.Plain.{model_of, mark_of, point_of, Written, MatrixEntry, RowsTold};

use sheet::{Mark, Model, Point, Points, Sheet, Side};

#[tactic(auto, using(flat::proofs::Decided::number_decided), unfolding(linalg::specs::Normalize::normalize_answer))]
#[unsafe(no_mangle)]
pub extern "C" fn probe_normalize_points_2d(marks: &[f64], side: u32, points: &mut [f64]) -> u32
    ensures { Written marks.now (side_of side) points.old result points.new }
{
    let side = Side::from(u64::from(side));
    rule::number(linalg::normalize_points_2d(Points { marks, side }, points))
}

// The same call, for the entry of the matrix at `place`, row by row: 0 where it is refused, and a NaN
// behind the ninth.
#[tactic(auto, using(crate::proofs::Cells::cell_beyond, crate::proofs::Cells::cell_inside, crate::proofs::Cells::cell_refused))]
#[unsafe(no_mangle)]
pub extern "C" fn probe_normalize_matrix(
    marks: &[f64],
    side: u32,
    points: &mut [f64],
    place: u32,
) -> f64
    ensures { MatrixEntry marks.now (side_of side) points.old place result points.new }
{
    let side = Side::from(u64::from(side));
    let answer = linalg::normalize_points_2d(Points { marks, side }, points);
    if place >= 9 {
        return flat::none();
    }
    match answer {
        Ok(normalized) => {
            let row = normalized.matrix[(place / 3) as usize];
            row.cells[(place % 3) as usize]
        }
        Err(_) => 0.0,
    }
}

#[unsafe(no_mangle)]
pub extern "C" fn probe_points_are_collinear(marks: &[f64], side: u32) -> u32
    ensures { result ≡ told_of (collinear_answer marks.now (side_of side)) }
{
    let side = Side::from(u64::from(side));
    match line::points_are_collinear(Points { marks, side }) {
        Ok(yes) => u32::from(yes),
        Err(refusal) => u32::from(refusal),
    }
}

#[unsafe(no_mangle)]
pub extern "C" fn probe_dlt_rows(marks: &[f64], rows: &mut [f64]) -> u32
    ensures { RowsTold marks.now rows.old result rows.new }
{
    rule::number(homography::dlt_rows(marks, rows))
}

#[unsafe(no_mangle)]
pub extern "C" fn probe_distance_told(
    h0: f64,
    h1: f64,
    h2: f64,
    h3: f64,
    h4: f64,
    h5: f64,
    h6: f64,
    h7: f64,
    h8: f64,
    x: f64,
    y: f64,
    u: f64,
    v: f64,
    ratio: f64,
) -> u32
    ensures { result ≡ measure_told (distance_answer sheet no_camera ratio (model_of h0 h1 h2 h3 h4 h5 h6 h7 h8) (mark_of x y u v)) }
{
    let h = Model::from([h0, h1, h2, h3, h4, h5, h6, h7, h8]);
    flat::told(sheet::distance(h, Mark { x, y, u, v }, ratio))
}

#[unsafe(no_mangle)]
pub extern "C" fn probe_distance(
    h0: f64,
    h1: f64,
    h2: f64,
    h3: f64,
    h4: f64,
    h5: f64,
    h6: f64,
    h7: f64,
    h8: f64,
    x: f64,
    y: f64,
    u: f64,
    v: f64,
    ratio: f64,
) -> f64
    ensures { result ≡ value_of (distance_answer sheet no_camera ratio (model_of h0 h1 h2 h3 h4 h5 h6 h7 h8) (mark_of x y u v)) }
{
    let h = Model::from([h0, h1, h2, h3, h4, h5, h6, h7, h8]);
    flat::value(sheet::distance(h, Mark { x, y, u, v }, ratio))
}

#[unsafe(no_mangle)]
pub extern "C" fn probe_residual_told(
    h0: f64,
    h1: f64,
    h2: f64,
    h3: f64,
    h4: f64,
    h5: f64,
    h6: f64,
    h7: f64,
    h8: f64,
    x: f64,
    y: f64,
    u: f64,
    v: f64,
    ratio: f64,
) -> u32
    ensures { result ≡ measure_told (gives (measure_of sheet no_camera ratio (model_of h0 h1 h2 h3 h4 h5 h6 h7 h8) (mark_of x y u v))) }
{
    let h = Model::from([h0, h1, h2, h3, h4, h5, h6, h7, h8]);
    flat::told(Ok(estimator::residual(Sheet, h, Mark { x, y, u, v }, ratio)))
}

#[unsafe(no_mangle)]
pub extern "C" fn probe_residual(
    h0: f64,
    h1: f64,
    h2: f64,
    h3: f64,
    h4: f64,
    h5: f64,
    h6: f64,
    h7: f64,
    h8: f64,
    x: f64,
    y: f64,
    u: f64,
    v: f64,
    ratio: f64,
) -> f64
    ensures { result ≡ value_of (gives (measure_of sheet no_camera ratio (model_of h0 h1 h2 h3 h4 h5 h6 h7 h8) (mark_of x y u v))) }
{
    let h = Model::from([h0, h1, h2, h3, h4, h5, h6, h7, h8]);
    flat::value(Ok(estimator::residual(Sheet, h, Mark { x, y, u, v }, ratio)))
}

#[unsafe(no_mangle)]
pub extern "C" fn probe_projection(
    h0: f64,
    h1: f64,
    h2: f64,
    h3: f64,
    h4: f64,
    h5: f64,
    h6: f64,
    h7: f64,
    h8: f64,
    x: f64,
    y: f64,
    place: u32,
) -> f64
    ensures { result ≡ part_of place (projection_of (model_of h0 h1 h2 h3 h4 h5 h6 h7 h8) (point_of x y)) }
{
    let h = Model::from([h0, h1, h2, h3, h4, h5, h6, h7, h8]);
    let to = sheet::project(h, Point { x, y });
    match place {
        0 => to.s,
        1 => to.at.x,
        2 => to.at.y,
        _ => flat::none(),
    }
}
