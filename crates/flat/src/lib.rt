// Distances and lists as plain numbers, for the comparison's entries of every family. A NaN stands where
// an answer has no number.
#![tactic(auto)]

ghost use Rattle.std.specs.Prelude.{◌≡◌};
ghost use Rattle.std.specs.Float.{nan};
ghost use Rattle.rule.specs.Answer.{told};
ghost use Rattle.estimator.specs.Entry.{measured};
ghost use Rattle.flat.specs.Flat.{measure_told, value_of, place_of};

use rule::Refusal;

// What stands for a mark that is beyond: no refusal has this number.
const BEYOND: u32 = 256;

#[tactic(auto, using(rule::proofs::Nan::nan_bits_lem))]
pub fn none() -> f64
    ensures { result ≡ nan }
{
    f64::NAN
}

// The number at a place, a NaN where there is none.
pub fn place_of(numbers: &[f64], place: u32) -> f64
    ensures { result ≡ place_of place numbers.now }
{
    numbers.get(place as usize).copied().unwrap_or(none())
}

// 0 where there is a distance, `BEYOND`, or the refusal's number.
pub fn told(answer: Result<Option<f64>, Refusal>) -> u32
    ensures { result ≡ measure_told (told measured answer) }
{
    match answer {
        Ok(Some(_)) => 0,
        Ok(None) => BEYOND,
        Err(refusal) => u32::from(refusal),
    }
}

// The distance, or a NaN where there is none.
pub fn value(answer: Result<Option<f64>, Refusal>) -> f64
    ensures { result ≡ value_of (told measured answer) }
{
    match answer {
        Ok(Some(d)) => d,
        _ => none(),
    }
}
