// The customer's third demand, one theorem: `specs/Demand.antt` states it, each clause beside the
// demand's words, and `demand_3` promises it. What it takes as its premises is what the calls promise at
// their own types: `sheets` and `forms` have functions that only call through, and promise just these.
// The functions here do the same of any family, and `calls_kept` promises what the demand says of calls,
// of any family.
#![tactic(auto)]

pub mod forms;
pub mod sheets;
mod theorems;

ghost use Rattle.judge.specs.Judging.{call_of};
ghost use Rattle.demand.specs.Demand.{Opens, OpensBy, Tried as Tries, Stepped, Indexes};

use estimator::Estimator;
use judge::Call;
use pick::{State, Tried};
use records::RansacOptions;
use rule::Refusal;
pub use theorems::{calls_kept, demand_3, families, no_square_negative, old_bits};

/// The opening, by the options type.
pub fn open<E: Estimator>(
    e: E,
    o: RansacOptions,
    marks: &[f64],
    stops: &[u32],
) -> Result<State<E, E::Model>, Refusal>
    ensures { Opens E.family e o marks.now stops.now result }
{
    pick::open(e, o, marks, stops)
}

/// The opening, by a record of options.
pub fn open_record<E: Estimator>(
    e: E,
    bytes: &[u8],
    marks: &[f64],
    stops: &[u32],
) -> Result<State<E, E::Model>, Refusal>
    ensures { OpensBy E.family e bytes.now marks.now stops.now result }
{
    pick::open_record(e, bytes, marks, stops)
}

/// A trial.
pub fn trial<E: Estimator>(s: State<E, E::Model>, call: Call) -> Tried<E, E::Model>
    ensures { Tries E.family s (call_of call.entry) result.state (record { outcome = result.outcome; beyond = result.beyond }) }
{
    pick::trial(s, call)
}

/// A trial over marks that the opening has tested.
pub fn step<E: Estimator>(s: State<E, E::Model>, call: Call) -> Tried<E, E::Model>
    ensures { Stepped E.family s (call_of call.entry) result.state (record { outcome = result.outcome; beyond = result.beyond }) }
{
    pick::step(s, call)
}

/// The winner's indices.
pub fn winner_indices<E: Estimator>(
    s: State<E, E::Model>,
    marks: &[f64],
    indices: &mut [u32],
) -> Result<usize, Refusal>
    ensures { Indexes E.family s marks.now indices.old result indices.new }
{
    pick::winner_indices(s, marks, indices)
}
