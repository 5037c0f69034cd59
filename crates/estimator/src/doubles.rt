// Marks of one position and two pixels (document 02, order 6): whether a list has two of them.
ghost use Rattle.std.specs.Prelude.{◌≡◌, ◌<◌, ◌≤◌, ◌-◌, ◌/◌, true, length};
ghost use Rattle.std.specs.List.{All};
ghost use Rattle.std.specs.Float.Ieee.{eq};
ghost use Rattle.std.specs.Cmp.Lexicographic.{pointwise};
ghost use Rattle.numbers.specs.Constants.{farthest};
ghost use Rattle.estimator.specs.Family.{mark_at};
ghost use Rattle.estimator.specs.Marks.{all_within};
ghost use Rattle.estimator.specs.Double.{clash, doubled};
ghost use Rattle.estimator.specs.Ranks.{neighbours};

use crate::Estimator;
use crate::positions::{Positions, fill_columns};
use std::marker::PhantomData;

// The numbers of the mark at place `i`.
#[tactic(auto, using(crate::proofs::Stride::inside))]
fn numbers_of<E: Estimator>(marks: &[f64], i: usize) -> &[f64]
    requires { i < length marks.now / E.WIDTH }
    ensures numbers { result.now ≡ E.family.mark_numbers (mark_at E.family marks.now i) }
    ensures wide { length result.now ≡ E.WIDTH }
{
    let at = E::WIDTH * i;
    &marks[at..at + E::WIDTH]
}

// Whether two lists of one length have equal numbers at each place. All are looked at, without a jump.
#[tactic(auto, using(crate::proofs::Stride::alike_more))]
fn alike(a: &[f64], b: &[f64]) -> bool
    requires { length a.now ≡ length b.now }
    ensures { result ≡ pointwise eq a.now b.now }
{
    let mut all = true;
    for k in 0..a.len() {
        all &= a[k] == b[k];
    }
    all
}

// Whether the marks at two places have one position and two pixels.
#[tactic(auto, unfolding(crate::specs::Double::clash, crate::specs::Double::position, crate::specs::Double::pixel))]
fn clash_at<E: Estimator>(marks: &[f64], i: usize, j: usize) -> bool
    requires { (i < length marks.now / E.WIDTH) × (j < length marks.now / E.WIDTH) }
    ensures { result ≡ clash E.family (mark_at E.family marks.now i) (mark_at E.family marks.now j) }
{
    let (position, pixel) = numbers_of::<E>(marks, i).split_at(E::WIDTH - 2);
    let (other_position, other_pixel) = numbers_of::<E>(marks, j).split_at(E::WIDTH - 2);
    alike(position, other_position) & !alike(pixel, other_pixel)
}

// Whether two of some places that stand side by side have marks of one position and two pixels.
#[tactic(auto, unfolding(crate::specs::Ranks::neighbours))]
fn neighbours_clash<E: Estimator>(marks: &[f64], places: &[u16]) -> bool
    requires { All (λ p. p < length marks.now / E.WIDTH) places.now }
    ensures { result ≡ neighbours (λ p q. clash E.family (mark_at E.family marks.now p) (mark_at E.family marks.now q)) (length places.now - 1) places.now }
{
    let mut any = false;
    for k in 0..places.len().saturating_sub(1) {
        any |= clash_at::<E>(marks, places[k] as usize, places[k + 1] as usize);
    }
    any
}

// Whether two of the marks have one position and two pixels: in the order of their positions these stand
// side by side.
pub(crate) fn doubled<E: Estimator>(marks: &[f64]) -> bool
    requires in_range { all_within farthest marks.now ≡ true }
    requires short { length marks.now ≤ 8000 }
    ensures { result ≡ doubled E.family (E.family.marks_of marks.now) }
{
    let n = marks.len() / E::WIDTH;
    let mut columns = [0; 4800];
    fill_columns::<E>(marks, &mut columns);
    let positions = Positions {
        columns: &columns,
        n,
        family: PhantomData::<E>,
    };
    let places = sorting::ascending(&positions);
    neighbours_clash::<E>(marks, &places[..n])
}
