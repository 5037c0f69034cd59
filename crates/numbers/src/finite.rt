// Magnitudes, and what is finite: `abs` and `is_finite` are std's, under document 01's words;
// `ensure_finite` asks it of a list; and 01's test of a magnitude.
ghost use Rattle.std.specs.Prelude.{◌≡◌};
ghost use Rattle.numbers.specs.Finite.{abs_of, is_finite, all_finite, within as withinOf};

// The sign cleared, a zero's too.
#[tactic(auto, using(crate::proofs::Laws::sign_cleared))]
pub fn abs(x: f64) -> f64
    ensures { result ≡ abs_of x }
{
    x.abs()
}

#[tactic(auto, using(crate::proofs::Laws::finite))]
pub fn is_finite(x: f64) -> bool
    ensures { result ≡ is_finite x }
{
    x.is_finite()
}

// Whether every number of the list is finite.
#[tactic(auto, unfolding(crate::specs::Finite::all_finite))]
pub fn ensure_finite(values: &[f64]) -> bool
    ensures { result ≡ all_finite values.now }
{
    values.iter().all(|x| is_finite(*x))
}

// Finite, and of magnitude at most `limit`.
#[tactic(auto, unfolding(crate::specs::Finite::within))]
pub fn within(x: f64, limit: f64) -> bool
    ensures { result ≡ withinOf limit x }
{
    is_finite(x) && abs(x) <= limit
}
