// The calls of a sheet's run, at its own types: each only calls through, and promises in the words of
// `sheet` what the theorem takes as its premise. So a family of another kind in the place of `sheet`, or
// a weaker contract of what is called, breaks this crate.
ghost use Rattle.rule.specs.Answer.{refusal_in};
ghost use Rattle.judge.specs.Judging.{call_of};
ghost use Rattle.sheet.specs.Sheets.{sheet, no_camera};
ghost use Rattle.demand.specs.Demand.{Opens, OpensBy, Tried as Tries, Stepped, Indexes, Ran};

use judge::Call;
use pick::{State, Tried};
use records::RansacOptions;
use rule::Refusal;
use sheet::{Model, Sheet};

/// The opening, by the options type.
pub fn open(o: RansacOptions, marks: &[f64], stops: &[u32]) -> Result<State<Sheet, Model>, Refusal>
    ensures { Opens sheet no_camera o marks.now stops.now result }
{
    pick::open(Sheet, o, marks, stops)
}

/// The opening, by a record of options.
pub fn open_record(
    bytes: &[u8],
    marks: &[f64],
    stops: &[u32],
) -> Result<State<Sheet, Model>, Refusal>
    ensures { OpensBy sheet no_camera bytes.now marks.now stops.now result }
{
    pick::open_record(Sheet, bytes, marks, stops)
}

/// A trial.
pub fn trial(s: State<Sheet, Model>, call: Call) -> Tried<Sheet, Model>
    ensures { Tries sheet s (call_of call.entry) result.state (record { outcome = result.outcome; beyond = result.beyond }) }
{
    pick::trial(s, call)
}

/// A trial over marks that the opening has tested.
pub fn step(s: State<Sheet, Model>, call: Call) -> Tried<Sheet, Model>
    ensures { Stepped sheet s (call_of call.entry) result.state (record { outcome = result.outcome; beyond = result.beyond }) }
{
    pick::step(s, call)
}

/// The winner's indices.
pub fn winner_indices(
    s: State<Sheet, Model>,
    marks: &[f64],
    indices: &mut [u32],
) -> Result<usize, Refusal>
    ensures { Indexes sheet s marks.now indices.old result indices.new }
{
    pick::winner_indices(s, marks, indices)
}

/// The whole run, which is a sheet's.
pub fn run(
    options: &[u8],
    marks: &[u8],
    stops: &[u8],
    trials: &[u8],
    winner: &mut [u8],
    indices: &mut [u8],
) -> Result<(), Refusal>
    ensures { Ran (record { options = options.now; marks = marks.now; stops = stops.now; trials = trials.now }) winner.old indices.old (refusal_in result) winner.new indices.new }
{
    salghemu::salghemu_run(options, marks, stops, trials, winner, indices)
}
