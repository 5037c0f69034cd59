// The row ratio (document 02, order 3): which ratios are accepted, and the square of a distance under
// one. Every family measures by it.
ghost use Rattle.std.specs.Prelude.{◌≡◌};
ghost use Rattle.numbers.specs.Ratio.{ratio_accepted, squared_off};

use crate::finite::is_finite;

#[tactic(auto, unfolding(crate::specs::Ratio::ratio_accepted))]
pub fn ratio_accepted(ratio: f64) -> bool
    ensures { result ≡ ratio_accepted ratio }
{
    is_finite(ratio) && 0.01 <= ratio && ratio <= 100.0
}

// The square of the distance of a pixel that is off by `du` and `dv`, for any numbers.
#[tactic(auto, unfolding(crate::specs::Ratio::squared_off))]
pub fn squared_off(ratio: f64, du: f64, dv: f64) -> f64
    ensures { result ≡ squared_off ratio du dv }
{
    let dw = dv * ratio;
    du * du + dw * dw
}
