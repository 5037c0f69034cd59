// The rows of the homography's linear system (document 01, 'Rows'; `dlt_homography` of
// homography.rs): two of nine numbers for each mark, from normalised coordinates that are worked out
// mark by mark.
#![tactic(auto)]

ghost use Rattle.std.specs.Prelude.{◌≡◌, ◌++◌, ◌+◌, ◌*◌, ◌≤◌, length};
ghost use Rattle.rule.specs.Lists.{replaced};
ghost use Rattle.sheet.specs.Marks.{marks_of};
ghost use Rattle.homography.specs.Rows.{row_at, u_row, v_row, rows_list, Rowing};

use linalg::{Change, change_of};
use line::on_one_line;
use rule::Refusal;
use sheet::{Point, Points, Sheet, Side};

// A row: −x, −y, −1 from place `at` on, 0 in the other three of the first six places, then w·x, w·y, w.
#[tactic(auto, unfolding(crate::specs::Rows::row_at), using(crate::proofs::Writing::stored))]
fn write_row(part: &mut [f64], at: usize, p: Point, w: f64)
    requires nine { length part.old ≡ 9 }
    requires before_six { at + 3 ≤ 6 }
    ensures { part.new ≡ row_at at p w }
{
    part.fill(0.0);
    part[at] = -p.x;
    part[at + 1] = -p.y;
    part[at + 2] = -1.0;
    part[6] = w * p.x;
    part[7] = w * p.y;
    part[8] = w;
}

// The two rows of mark `i`, from its normalised points: each into its own part, at 9 times the row.
#[tactic(auto, using(crate::proofs::Writing::two_rows))]
fn write_mark(rows: &mut [f64], i: usize, p: Point, q: Point)
    requires { 18 * i + 18 ≤ length rows.old }
    ensures { rows.new ≡ replaced (18 * i) (u_row p q.x ++ v_row p q.y) rows.old }
{
    let row = 2 * i;
    let a = 9 * row;
    let b = a + 9;
    let e = b + 9;
    write_row(&mut rows[a..b], 0, p, q.x);
    write_row(&mut rows[b..e], 3, p, q.y);
}

#[tactic(auto, using(crate::proofs::Writing::written_none, crate::proofs::Writing::written_more, crate::proofs::Writing::written_all))]
fn write_rows(marks: &[f64], sheet: Change, pixel: Change, rows: &mut [f64])
    requires { 18 * length (marks_of marks.now) ≤ length rows.old }
    ensures { rows.new ≡ rows_list sheet pixel marks.now rows.old }
{
    for i in 0..estimator::mark_count::<Sheet>(marks) {
        let m = sheet::mark_at(marks, i);
        let p = linalg::normalize_point(sheet, sheet::point_of(m, Side::Sheet));
        let q = linalg::normalize_point(pixel, sheet::point_of(m, Side::Pixel));
        write_mark(rows, i, p, q);
    }
}

// The rows of all marks into the lent list, the rest of which stays. Refused with 5, 6, 7, 18, 13, 14,
// 12 or 9, in this order; the lent list then stays as it is.
#[tactic(auto, unfolding(rule::specs::Order::first_failed, rule::specs::Order::if_passed, rule::specs::Order::room, linalg::specs::Normalize::change_of, crate::specs::Rows::rows_tests, crate::specs::Rows::sheet_line, crate::specs::Rows::pixel_line, crate::specs::Rows::spreads), using(estimator::proofs::Run::run_first, estimator::proofs::Order::above_0, sheet::specs::Owed::counts))]
pub fn dlt_rows(marks: &[f64], rows: &mut [f64]) -> Result<(), Refusal>
    ensures { Rowing marks.now rows.old result rows.new }
{
    estimator::check_run::<Sheet>(marks)?;
    let on_sheet = Points {
        marks,
        side: Side::Sheet,
    };
    let as_pixels = Points {
        marks,
        side: Side::Pixel,
    };
    if on_one_line(on_sheet) {
        return Err(Refusal::SheetLine);
    }
    if on_one_line(as_pixels) {
        return Err(Refusal::PixelLine);
    }
    let sheet = change_of(on_sheet);
    if sheet.flat {
        return Err(Refusal::Spread);
    }
    let pixel = change_of(as_pixels);
    if pixel.flat {
        return Err(Refusal::Spread);
    }
    if rows.len() < 18 * estimator::mark_count::<Sheet>(marks) {
        return Err(Refusal::Room);
    }
    write_rows(marks, sheet, pixel, rows);
    Ok(())
}
