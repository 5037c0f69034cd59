// The calls of a form's run, at its own types: each only calls through, and promises in the words of
// `form` what the theorem takes as its premise. So a family of another kind in the place of `form`, or
// a weaker contract of what is called, breaks this crate.
ghost use Rattle.judge.specs.Judging.{call_of};
ghost use Rattle.form.specs.Forms.{form};
ghost use Rattle.demand.specs.Demand.{Opens, OpensBy, OpensByRecords, Tried as Tries, Stepped, Indexes};

use form::{Camera, Model};
use judge::Call;
use pick::{State, Tried};
use records::RansacOptions;
use rule::Refusal;

/// The opening, by the options type.
pub fn open(
    camera: Camera,
    o: RansacOptions,
    marks: &[f64],
    stops: &[u32],
) -> Result<State<Camera, Model>, Refusal>
    ensures { Opens form camera o marks.now stops.now result }
{
    pick::open(camera, o, marks, stops)
}

/// The opening, by a record of options.
pub fn open_record(
    camera: Camera,
    bytes: &[u8],
    marks: &[f64],
    stops: &[u32],
) -> Result<State<Camera, Model>, Refusal>
    ensures { OpensBy form camera bytes.now marks.now stops.now result }
{
    pick::open_record(camera, bytes, marks, stops)
}

/// The opening, by a record of options and one of the camera.
pub fn open_records(
    options: &[u8],
    camera: &[u8],
    marks: &[f64],
    stops: &[u32],
) -> Result<State<Camera, Model>, Refusal>
    ensures { OpensByRecords options.now camera.now marks.now stops.now result }
{
    form_records::open_records(options, camera, marks, stops)
}

/// A trial.
pub fn trial(s: State<Camera, Model>, call: Call) -> Tried<Camera, Model>
    ensures { Tries form s (call_of call.entry) result.state (record { outcome = result.outcome; beyond = result.beyond }) }
{
    pick::trial(s, call)
}

/// A trial over marks that the opening has tested.
pub fn step(s: State<Camera, Model>, call: Call) -> Tried<Camera, Model>
    ensures { Stepped form s (call_of call.entry) result.state (record { outcome = result.outcome; beyond = result.beyond }) }
{
    pick::step(s, call)
}

/// The winner's indices.
pub fn winner_indices(
    s: State<Camera, Model>,
    marks: &[f64],
    indices: &mut [u32],
) -> Result<usize, Refusal>
    ensures { Indexes form s marks.now indices.old result indices.new }
{
    pick::winner_indices(s, marks, indices)
}
