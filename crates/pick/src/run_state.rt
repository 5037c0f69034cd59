// The state of a run: what marks are measured by, the checked options, the number of marks, the counts
// with the bound, and the winner.
use booking::Counts;
use records::RansacOptions;
use rule::Refusal;

// The standing model of the best scored trial so far, its own count and root mean square, and the
// trial's number from 1.
#[derive(Clone, Copy)]
pub struct Winner<M> {
    pub model: M,
    pub count: u32,
    pub rms: f64,
    pub number: u32,
}

#[derive(Clone, Copy)]
pub struct State<E, M> {
    // the family's value: the camera of a form, for a sheet one that says nothing
    pub estimator: E,
    pub options: RansacOptions,
    pub n: usize,
    // the run has ended when `read` reaches `bound`
    pub counts: Counts,
    pub winner: Option<Winner<M>>,
}

// What became of a trial, by document 01's cases: refused, and the old state stands beside it; no fit;
// too few marks, and how many; held or won, with count and root mean square.
#[derive(Clone, Copy)]
pub enum Outcome {
    Refused(Refusal),
    Empty,
    Few(u32),
    Held(u32, f64),
    Won(u32, f64),
}

// A trial's answer: the new state, which is the old one where it was refused, the outcome, and how many
// marks are beyond under the fit: 0 without one, and where it was refused.
#[derive(Clone, Copy)]
pub struct Tried<E, M> {
    pub state: State<E, M>,
    pub outcome: Outcome,
    pub beyond: u32,
}
