// The theorems, each the promise of a function that does nothing: so the crate isn't proved without it.
ghost use Rattle.std.specs.Prelude.{◌≡◌};
ghost use Rattle.sheet.specs.Sheets.{sheet};
ghost use Rattle.form.specs.Forms.{form};
ghost use Rattle.demand.specs.Demand.{CallsKept, Demand3};
ghost use Rattle.demand.specs.OldBits.{OldBits};
ghost use Rattle.demand.specs.Signs.{NoneNegative};

use estimator::Estimator;
use form::Camera;
use sheet::Sheet;

/// What the demand says of calls, of any family.
pub fn calls_kept<E: Estimator>()
    ensures { CallsKept E.family }
{}

/// The demand.
#[tactic(auto, using(crate::proofs::Demanded::demand_3))]
pub fn demand_3()
    ensures { Demand3 }
{}

/// That a record of 32 bytes, or the maker, has ratio 1 and gives the old bits.
#[tactic(auto, using(crate::proofs::Old::old_bits))]
pub fn old_bits()
    ensures { OldBits }
{}

/// That no measured square is negative, whatever the ratio and the camera are.
#[tactic(auto, using(crate::proofs::Signs::sheet_squares, crate::proofs::Signs::form_squares))]
pub fn no_square_negative()
    ensures { NoneNegative sheet × NoneNegative form }
{}

/// That each family's own definitions are those that the theorems name.
pub fn families()
    ensures sheets { ⟦<Sheet as Estimator>⟧.family ≡ sheet }
    ensures forms { ⟦<Camera as Estimator>⟧.family ≡ form }
{}
