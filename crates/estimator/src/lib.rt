// A family of marks and candidates, as the picker sees it (document 02, order 5; the source's
// `Estimator`): what each family gives, and the tests of a list of marks, which all of them share.
#![tactic(auto)]

ghost use Rattle.std.specs.Prelude.{◌≡◌, OnOk, true, ℕ, List, ◌≤◌, ◌<◌, ◌*◌, ◌/◌, length, take, drop, Float};
ghost use Rattle.rule.specs.Answer.{refusal_in, told, OneAnswer};
ghost use Rattle.rule.specs.Order.{first_failed, all_numbered};
ghost use Rattle.numbers.specs.Constants.{farthest};
ghost use Rattle.numbers.specs.Finite.{all_finite};
ghost use Rattle.estimator.specs.Family.{Family, mark_at, measure_of, squared_distance_of};
ghost use Rattle.estimator.specs.Marks.{all_within, shape_tests, marks_tests, enough_tests, run_tests};
ghost use Rattle.estimator.specs.Numbers.{doubles_formed, model_read};
ghost use Rattle.estimator.specs.Entry.{measured, distance_answer};

mod doubles;
mod positions;

use doubles::doubled;
use rule::Refusal;

// A family. Its values are what marks are measured by: a camera, or for sheets one that says nothing. (The
// source's trait also fits a candidate, which a fitting program does here, and its residual has no such
// value.)
pub trait Estimator: Copy {
    // A mark. In the terms of the field, a datum.
    type Datum: Copy;

    // A candidate.
    type Model: Copy;

    // Numbers a mark.
    const WIDTH: usize;

    ghost WIDTH: { ℕ };

    // The fewest marks of a run.
    const MIN_SAMPLES: usize;

    ghost MIN_SAMPLES: { ℕ };

    // Numbers a candidate.
    const SIZE: usize;

    ghost SIZE: { ℕ };

    ghost family: { Family Self Self.Model Self.Datum };

    // The mark at place `i`; all zeros where there is none.
    fn mark_at(marks: &[f64], i: usize) -> Self::Datum
        ensures { result ≡ mark_at family marks.now i };

    // The square of the distance of a mark, for any numbers: none where the mark is beyond.
    fn squared_distance(self, h: Self::Model, m: Self::Datum, ratio: f64) -> Option<f64>
        ensures { result ≡ squared_distance_of family self ratio h m };

    // The candidate at the front of some bytes, none where its numbers may not stand there.
    fn read_model(mark: bool, bytes: &[u8]) -> Option<Self::Model>
        ensures { result ≡ model_read family mark bytes.now };

    // What an opening asks of it.
    fn validate(self) -> Result<(), Refusal>
        ensures { refusal_in result ≡ first_failed (family.tests self) };

    // Whether every number of a candidate is finite.
    fn model_finite(h: Self::Model) -> bool
        ensures { result ≡ all_finite (family.model_numbers h) };

    // Whether every number of a mark is in range.
    fn mark_in_range(m: Self::Datum) -> bool
        ensures { result ≡ all_within farthest (family.mark_numbers m) };

    // The family's numbers are the constants.
    ghost width_is: { family.width ≡ WIDTH };

    ghost least_is: { family.least ≡ MIN_SAMPLES };

    ghost size_is: { family.size ≡ SIZE };

    // 8,000 numbers are at most 2,000 marks, for which the picker has a place each.
    ghost wide: { 4 ≤ WIDTH };

    // In front of a mark's pixel are at most three numbers.
    ghost narrow: { WIDTH ≤ 5 };

    // No length of a record overflows.
    ghost small: { SIZE ≤ 1000 };

    // What is left over at the end of a list is no mark.
    ghost counts: { (l : List Float) → length (family.marks_of l) ≡ length l / WIDTH };

    // A mark's numbers stand side by side.
    ghost placed: { (l : List Float) (i : ℕ) → i < length l / WIDTH → family.mark_numbers (mark_at family l i) ≡ take WIDTH (drop (WIDTH * i) l) };

    // The numbers of the candidate of a list are the list's first.
    ghost modelled: { (l : List Float) → SIZE ≤ length l → family.model_numbers (family.model_of l) ≡ take SIZE l };

    // No test that a family asks has number 0, which would say that it passed.
    ghost numbered: { (e : Self) → all_numbered (family.tests e) ≡ true };
}

// How many marks: those that the list has in full.
pub fn mark_count<E: Estimator>(marks: &[f64]) -> usize
    ensures { result ≡ length (E.family.marks_of marks.now) }
{
    marks.len() / E::WIDTH
}

// The test of a list's shape, 8,000 numbers at most: refused with 5. So there are at most 2,000 marks.
#[tactic(auto, using(crate::proofs::Tests::at_most), unfolding(rule::specs::Order::first_failed, crate::specs::Marks::shape_tests, crate::specs::Marks::shape))]
pub fn check_shape<E: Estimator>(marks: &[f64]) -> Result<(), Refusal>
    ensures refusal_value { refusal_in result ≡ first_failed (shape_tests E.family marks.now) }
    ensures few_enough { OnOk result (length (E.family.marks_of marks.now) ≤ 2000) }
    ensures short { OnOk result (length marks.now ≤ 8000) }
{
    if marks.len() % E::WIDTH != 0 {
        return Err(Refusal::Shape);
    }
    if 8000 < marks.len() {
        return Err(Refusal::Shape);
    }
    Ok(())
}

// Whether every number of a part is in range: finite, and of magnitude at most 1e9, by two comparisons, since
// every mark is tested. All are looked at: where nearly every list passes, a jump for each number is what takes
// the time.
#[tactic(auto, unfolding(crate::specs::Marks::all_within), using(std::proofs::lemmas::List::Folds::list_all_more, crate::proofs::Range::in_range, crate::proofs::Range::out_of_range))]
fn part_in_range(numbers: &[f64]) -> bool
    ensures { result ≡ all_within farthest numbers.now }
{
    let mut all = true;
    for x in numbers {
        all &= (-1e9 <= *x) & (*x <= 1e9);
    }
    all
}

// Whether every number is in range. By parts, so that a list isn't looked at behind the first part that has
// one out of range.
pub fn all_in_range(numbers: &[f64]) -> bool
    ensures { result ≡ all_within farthest numbers.now }
{
    let (parts, rest) = numbers.as_chunks::<32>();
    for part in parts {
        if !part_in_range(part) {
            return false;
        }
    }
    part_in_range(rest)
}

// The tests of a list of marks, in order: refused with 5, 6 or 18.
#[tactic(auto, unfolding(rule::specs::Order::first_failed, crate::specs::Marks::marks_tests, crate::specs::Marks::shape_tests, crate::specs::Marks::shape, crate::specs::Marks::point, crate::specs::Marks::double))]
pub fn check_marks<E: Estimator>(marks: &[f64]) -> Result<(), Refusal>
    ensures refusal_value { refusal_in result ≡ first_failed (marks_tests E.family marks.now) }
    ensures few_enough { OnOk result (length (E.family.marks_of marks.now) ≤ 2000) }
{
    check_shape::<E>(marks)?;
    if !all_in_range(marks) {
        return Err(Refusal::Point);
    }
    if doubled::<E>(marks) {
        return Err(Refusal::Double);
    }
    Ok(())
}

// The tests of the marks of a run after their shape, in order: refused with 6, 7 or 18.
#[tactic(auto, unfolding(rule::specs::Order::first_failed, crate::specs::Marks::enough_tests, crate::specs::Marks::point, crate::specs::Marks::double, crate::specs::Marks::few))]
fn check_enough<E: Estimator>(marks: &[f64]) -> Result<(), Refusal>
    requires { length marks.now ≤ 8000 }
    ensures { refusal_in result ≡ first_failed (enough_tests E.family marks.now) }
{
    if !all_in_range(marks) {
        return Err(Refusal::Point);
    }
    if mark_count::<E>(marks) < E::MIN_SAMPLES {
        return Err(Refusal::Few);
    }
    if doubled::<E>(marks) {
        return Err(Refusal::Double);
    }
    Ok(())
}

// The tests of the marks of a run, in order: refused with 5, 6, 7 or 18.
#[tactic(auto, unfolding(rule::specs::Order::first_failed, crate::specs::Marks::run_tests, crate::specs::Marks::shape_tests, crate::specs::Marks::shape))]
pub fn check_run<E: Estimator>(marks: &[f64]) -> Result<(), Refusal>
    ensures refusal_value { refusal_in result ≡ first_failed (run_tests E.family marks.now) }
    ensures few_enough { OnOk result (length (E.family.marks_of marks.now) ≤ 2000) }
{
    check_shape::<E>(marks)?;
    check_enough::<E>(marks)
}

// Whether numbers may stand in a record: finite where they are marked, else zero bits.
#[tactic(auto, unfolding(crate::specs::Numbers::doubles_formed))]
pub fn numbers_formed(mark: bool, numbers: &[f64]) -> bool
    ensures { result ≡ doubles_formed mark numbers.now }
{
    if mark {
        numbers::ensure_finite(numbers)
    } else {
        numbers.iter().all(|x| fields::bits_of(*x) == 0)
    }
}

// The distance for any numbers, none where the mark is beyond. It refuses nothing.
#[tactic(auto, unfolding(crate::specs::Family::measure_of, crate::specs::Family::squared_distance_of))]
pub fn residual<E: Estimator>(e: E, h: E::Model, m: E::Datum, ratio: f64) -> Option<f64>
    ensures { measured result ≡ measure_of E.family e ratio h m }
{
    e.squared_distance(h, m, ratio).map(root::sqrt)
}

// The distance of a mark under a candidate by a row ratio, none where the mark is beyond; refused with 1
// where a number of the candidate is not finite, then with 6 where one of the mark is out of range, then
// with 16 where the ratio is not from 0.01 to 100, then by what the family asks.
#[tactic(auto, unfolding(rule::specs::Order::first_failed, rule::specs::Order::decided, crate::specs::Entry::distance_answer, crate::specs::Entry::distance_tests, crate::specs::Entry::model, crate::specs::Marks::point, numbers::specs::Ratio::ratio))]
pub fn distance<E: Estimator>(
    e: E,
    h: E::Model,
    m: E::Datum,
    ratio: f64,
) -> Result<Option<f64>, Refusal>
    ensures { told measured result ≡ distance_answer E.family e ratio h m }
{
    if !E::model_finite(h) {
        return Err(Refusal::Record);
    }
    if !E::mark_in_range(m) {
        return Err(Refusal::Point);
    }
    if !numbers::ratio_accepted(ratio) {
        return Err(Refusal::Ratio);
    }
    e.validate()?;
    Ok(residual(e, h, m, ratio))
}

/// That a contract on what a measured distance stands for leaves one answer.
#[tactic(auto, using(crate::proofs::View::view_one))]
pub fn one_answer()
    ensures { OneAnswer measured }
{}
