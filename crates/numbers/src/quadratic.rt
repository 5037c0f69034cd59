// The real roots of a quadratic (document 01, 'Quadratic'; linalg.rs): every operation once, in the
// source's order, so that each bit is the Rust's.
ghost use Rattle.std.specs.Prelude.{◌≡◌};
ghost use Rattle.rule.specs.Answer.{told, OneAnswer};
ghost use Rattle.numbers.specs.Quadratic.{counts0, linear, ascending, curved, quadratic_answer, view_quadratic};

use crate::finite::{abs, within};
use rule::Refusal;

// The real roots: none, one, or two ascending.
#[derive(Clone, Copy)]
pub enum Quadratic {
    NoRoot,
    One(f64),
    Two(f64, f64),
}

// Whether `x` counts as 0.
#[tactic(auto, unfolding(crate::specs::Quadratic::counts0))]
fn counts_0(x: f64) -> bool
    ensures { result ≡ counts0 x }
{
    abs(x) < 1e-12
}

// The root of b·x + c.
#[tactic(auto, unfolding(crate::specs::Quadratic::linear, crate::specs::Quadratic::view_quadratic))]
fn solve_linear(b: f64, c: f64) -> Quadratic
    ensures { view_quadratic result ≡ linear b c }
{
    if counts_0(b) {
        Quadratic::NoRoot
    } else {
        Quadratic::One(-c / b)
    }
}

// Two roots in order, or the plus root alone where they are all but equal.
#[tactic(auto, unfolding(crate::specs::Quadratic::ascending, crate::specs::Quadratic::view_quadratic))]
fn in_order(plus: f64, minus: f64) -> Quadratic
    ensures { view_quadratic result ≡ ascending plus minus }
{
    if abs(plus - minus) < 1e-8 {
        return Quadratic::One(plus);
    }
    // By the source's comparison: `min` and `max` leave open which zero comes first.
    if minus < plus {
        Quadratic::Two(minus, plus)
    } else {
        Quadratic::Two(plus, minus)
    }
}

// The roots where `a` doesn't count as 0, by the discriminant.
#[tactic(auto, unfolding(crate::specs::Quadratic::curved, crate::specs::Quadratic::view_quadratic))]
fn solve_curved(a: f64, b: f64, disc: f64) -> Quadratic
    ensures { view_quadratic result ≡ curved a b disc }
{
    if counts_0(disc) {
        return Quadratic::One(-b / (2.0 * a));
    }
    if disc < 0.0 {
        return Quadratic::NoRoot;
    }
    let sqrt_disc = root::sqrt(disc);
    in_order((-b + sqrt_disc) / (2.0 * a), (-b - sqrt_disc) / (2.0 * a))
}

// The real roots of a·x² + b·x + c; refused with 15 where a coefficient is not finite or of
// magnitude above 1e100.
#[tactic(auto, unfolding(crate::specs::Quadratic::quadratic_answer, crate::specs::Quadratic::roots_of, crate::specs::Quadratic::discriminant))]
pub fn solve_quadratic_real(a: f64, b: f64, c: f64) -> Result<Quadratic, Refusal>
    ensures { told view_quadratic result ≡ quadratic_answer a b c }
{
    if !(within(a, 1e100) && within(b, 1e100) && within(c, 1e100)) {
        return Err(Refusal::Number);
    }
    Ok(if counts_0(a) {
        solve_linear(b, c)
    } else {
        solve_curved(a, b, b * b - 4.0 * a * c)
    })
}

/// That the contract of `solve_quadratic_real`, which is on the roots as a list, leaves one answer.
#[tactic(auto, using(crate::proofs::View::view_one))]
pub fn one_answer()
    ensures { OneAnswer view_quadratic }
{}
