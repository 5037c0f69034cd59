// The rows of the linear system for a standing form's candidate (document 02, order 5; `dlt` of dlt.rs):
// two of twelve numbers for each mark, from normalised points that are worked out mark by mark, and
// pixels that are taken as normalised.
#![tactic(auto)]

ghost use Rattle.std.specs.Prelude.{◌≡◌, ◌++◌, ◌+◌, ◌*◌, ◌≤◌, length};
ghost use Rattle.rule.specs.Lists.{replaced};
ghost use Rattle.form.specs.Marks.{marks_of};
ghost use Rattle.dlt.specs.Rows.{row_at, u_row, v_row, rows_list, Rowing};

use form::{Camera, Pixel, Point, Points};
use linalg_3d::{Change, change_of};
use rule::Refusal;

// A row: x, y, z, 1 from place `at` on, 0 in the other four of the first eight places, then (−w)·x, (−w)·y,
// (−w)·z, −w.
#[tactic(auto, unfolding(crate::specs::Rows::row_at), using(crate::proofs::Writing::stored))]
fn write_row(part: &mut [f64], at: usize, p: Point, w: f64)
    requires twelve { length part.old ≡ 12 }
    requires before_eight { at + 4 ≤ 8 }
    ensures { part.new ≡ row_at at p w }
{
    part.fill(0.0);
    part[at] = p.x;
    part[at + 1] = p.y;
    part[at + 2] = p.z;
    part[at + 3] = 1.0;
    part[8] = -w * p.x;
    part[9] = -w * p.y;
    part[10] = -w * p.z;
    part[11] = -w;
}

// The two rows of mark `i`, from its normalised point and its pixel: each into its own part, at 12 times
// the row.
#[tactic(auto, using(crate::proofs::Writing::two_rows))]
fn write_mark(rows: &mut [f64], i: usize, p: Point, q: Pixel)
    requires { 24 * i + 24 ≤ length rows.old }
    ensures { rows.new ≡ replaced (24 * i) (u_row p q.u ++ v_row p q.v) rows.old }
{
    let row = 2 * i;
    let a = 12 * row;
    let b = a + 12;
    let e = b + 12;
    write_row(&mut rows[a..b], 0, p, q.u);
    write_row(&mut rows[b..e], 4, p, q.v);
}

#[tactic(auto, using(crate::proofs::Writing::written_none, crate::proofs::Writing::written_more, crate::proofs::Writing::written_all))]
fn write_rows(marks: &[f64], change: Change, rows: &mut [f64])
    requires { 24 * length (marks_of marks.now) ≤ length rows.old }
    ensures { rows.new ≡ rows_list change marks.now rows.old }
{
    for i in 0..estimator::mark_count::<Camera>(marks) {
        let m = form::mark_at(marks, i);
        let p = linalg_3d::normalize_point(change, form::point_of(m));
        write_mark(rows, i, p, form::pixel_of(m));
    }
}

// The rows of all marks into the lent list, the rest of which stays. Refused with 5, 6, 7, 18, 12 or 9,
// in this order; the lent list then stays as it is.
#[tactic(auto, unfolding(rule::specs::Order::first_failed, rule::specs::Order::if_passed, rule::specs::Order::room, linalg_3d::specs::Normalize::change_of, linalg_3d::specs::Normalize::spread, crate::specs::Rows::rows_tests), using(estimator::proofs::Run::run_first, estimator::proofs::Order::above_0, form::specs::Owed::counts))]
pub fn dlt_rows(marks: &[f64], rows: &mut [f64]) -> Result<(), Refusal>
    ensures { Rowing marks.now rows.old result rows.new }
{
    estimator::check_run::<Camera>(marks)?;
    let change = change_of(Points { marks }).ok_or(Refusal::Spread)?;
    if rows.len() < 24 * estimator::mark_count::<Camera>(marks) {
        return Err(Refusal::Room);
    }
    write_rows(marks, change, rows);
    Ok(())
}
