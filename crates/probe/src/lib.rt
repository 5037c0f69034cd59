// The leaves and entries for the comparison with the Rust: each one exported with plain numbers, over the C
// calling convention. A NaN stands where an answer has no number. What has two numbers
// is two functions, since C takes one from a call.
#![tactic(auto)]

mod geometry;

ghost use Rattle.std.specs.Prelude.{◌≡◌, [], ◌∷◌, get_or};
ghost use Rattle.std.specs.Float.{nan};
ghost use Rattle.root.specs.Root.{root_of, root_answer};
ghost use Rattle.numbers.specs.Finite.{abs_of, is_finite, all_finite, within};
ghost use Rattle.numbers.specs.Quadratic.{quadratic_answer};
ghost use Rattle.numbers.specs.Rank.{rank_ok};
ghost use Rattle.probe.specs.Flat.{refusal_of, count_of, place_of};

use numbers::Quadratic;

#[unsafe(no_mangle)]
pub extern "C" fn probe_sqrt(a: f64) -> f64
    ensures { result ≡ root_of a }
{
    root::sqrt(a)
}

// The root of the number at `place`, 0 or 1, of the two, both being taken.
#[unsafe(no_mangle)]
pub extern "C" fn probe_sqrt_two(a: f64, b: f64, place: u32) -> f64
    ensures { result ≡ get_or (root_of a ∷ root_of b ∷ []) place nan }
{
    let (x, y) = root::sqrt_two(a, b);
    flat::place_of(&[x, y], place)
}

#[unsafe(no_mangle)]
pub extern "C" fn probe_root_refusal(a: f64) -> u32
    ensures { result ≡ refusal_of (root_answer a) }
{
    rule::number(root::root(a))
}

#[tactic(auto, unfolding(numbers::specs::Quadratic::view_quadratic))]
#[unsafe(no_mangle)]
pub extern "C" fn probe_quadratic_count(a: f64, b: f64, c: f64) -> u32
    ensures { result ≡ count_of (quadratic_answer a b c) }
{
    match numbers::solve_quadratic_real(a, b, c) {
        Ok(Quadratic::NoRoot) => 0,
        Ok(Quadratic::One(_)) => 1,
        Ok(Quadratic::Two(_, _)) => 2,
        Err(refusal) => u32::from(refusal),
    }
}

#[tactic(auto, unfolding(numbers::specs::Quadratic::view_quadratic))]
#[unsafe(no_mangle)]
pub extern "C" fn probe_quadratic_root(a: f64, b: f64, c: f64, place: u32) -> f64
    ensures { result ≡ place_of place (quadratic_answer a b c) }
{
    match numbers::solve_quadratic_real(a, b, c) {
        Ok(Quadratic::NoRoot) => flat::none(),
        Ok(Quadratic::One(x)) => flat::place_of(&[x], place),
        Ok(Quadratic::Two(x, y)) => flat::place_of(&[x, y], place),
        Err(_) => flat::none(),
    }
}

#[unsafe(no_mangle)]
pub extern "C" fn probe_dlt_rank_ok(
    values: &[f64],
    cols: usize,
    null: usize,
    tolerance: f64,
) -> bool
    ensures { result ≡ rank_ok values.now cols null tolerance }
{
    numbers::dlt_rank_ok(values, cols, null, tolerance)
}

#[unsafe(no_mangle)]
pub extern "C" fn probe_ensure_finite(values: &[f64]) -> bool
    ensures { result ≡ all_finite values.now }
{
    numbers::ensure_finite(values)
}

#[unsafe(no_mangle)]
pub extern "C" fn probe_abs(x: f64) -> f64
    ensures { result ≡ abs_of x }
{
    numbers::abs(x)
}

#[unsafe(no_mangle)]
pub extern "C" fn probe_is_finite(x: f64) -> bool
    ensures { result ≡ is_finite x }
{
    numbers::is_finite(x)
}

#[unsafe(no_mangle)]
pub extern "C" fn probe_within(x: f64, limit: f64) -> bool
    ensures { result ≡ within limit x }
{
    numbers::within(x, limit)
}
