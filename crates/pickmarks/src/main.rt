// The program (document 01, 'Sheets to try'): a run over options.bin, marks.bin, stops.bin and
// trials.bin of the current folder. It prints a line for each trial, then the winner, the winner's
// marks and the counts. What is picked is decided in `pick`; here is the reading and the printing.
#![tactic(auto)]

mod files;
mod lines;

use judge::Call;
use lines::TrialLine;
use pick::{Outcome, State, Tried};
use rule::Refusal;
use sheet::{Model, Sheet};
use std::io::Read;
use std::rt::Files;
use std::{fs, io};

// Why a run ends early: a refusal, which is printed, or a line that can't be written.
enum Stop {
    Refused(Refusal),
    Unwritten(io::Error),
}

impl From<Refusal> for Stop {
    fn from(e: Refusal) -> Stop {
        Stop::Refused(e)
    }
}

impl From<io::Error> for Stop {
    fn from(e: io::Error) -> Stop {
        Stop::Unwritten(e)
    }
}

// What a run is opened with and its calls are given again: the marks' numbers, and the stop entries.
#[derive(Clone, Copy)]
struct Run<'a> {
    marks: &'a [f64],
    stops: &'a [u32],
}

impl<'a> Run<'a> {
    // The next trial of the file: none at its end. One that is cut off goes to `step` as it is, and is
    // refused for its length. The opening tested the marks, and `step` doesn't test them again: it
    // answers as `trial` does (`by_steps` of crates/demand/specs/Demand.antt). No heap, so there are
    // places for a record, and a number of those that were read.
    fn next_trial<F: Read>(
        self,
        file: &mut F,
        s: State<Sheet, Model>,
    ) -> Option<Tried<Sheet, Model>> {
        let mut record = [0u8; 152];
        let len = reading::read_full(file, &mut record);
        if len == 0 {
            return None;
        }
        let call = Call {
            bytes: &record[..len],
            marks: self.marks,
            stops: self.stops,
        };
        Some(pick::step(s, call))
    }

    // All trials up to the end of the run or of the file, or a refusal, and their lines; the last state.
    // Each turn reads one, and the bound is never above 100,000, the ceiling on max_iters, so the turns
    // suffice.
    fn print_trials<F: Read>(
        self,
        rt: &impl Print,
        file: &mut F,
        s: State<Sheet, Model>,
    ) -> Result<State<Sheet, Model>, Stop> {
        let mut state = s;
        for _ in 0..100_000 {
            if state.counts.is_closed() {
                return Ok(state);
            }
            let Some(tried) = self.next_trial(file, state) else {
                return Ok(state);
            };
            if let Outcome::Refused(refusal) = tried.outcome {
                return Err(Stop::Refused(refusal));
            }
            state = tried.state;
            let line = TrialLine {
                number: state.counts.read,
                outcome: tried.outcome,
            };
            println!(rt; "{line}")?;
        }
        Ok(state)
    }

    // The trials of trials.bin; a file that can't be opened counts as empty.
    fn print_file(
        self,
        rt: &(impl Files + Print),
        s: State<Sheet, Model>,
    ) -> Result<State<Sheet, Model>, Stop> {
        match fs::open(rt, "trials.bin") {
            Ok(mut file) => self.print_trials(rt, &mut file, s),
            Err(_) => Ok(s),
        }
    }

    // What is printed for an options record.
    fn print(self, rt: &(impl Files + Print), record: &[u8]) -> Result<(), Stop> {
        let s = pick::open_record(Sheet, record, self.marks, self.stops)?;
        rt.print("trial outcome count rms\n")?;
        let last = self.print_file(rt, s)?;
        lines::print_winner(rt, last, self.marks)?;
        lines::print_counts(rt, last.counts)?;
        Ok(())
    }
}

fn main(rt: HostRuntime) -> io::Result<()> {
    // no heap; one byte more than the longer kind of record has, so that a longer file has a wrong length
    // too
    let mut record = [0u8; 41];
    let record = files::read_file(&rt, "options.bin", &mut record);
    // no heap, so there are places for the longest run, of 2,000 marks
    let mut marks = [0.0; 8000];
    let mut stops = [0u32; 2001];
    let run = Run {
        marks: files::read_marks(&rt, &mut marks),
        stops: files::read_stops(&rt, &mut stops),
    };
    match run.print(&rt, record) {
        Ok(()) => Ok(()),
        Err(Stop::Refused(refusal)) => println!(rt; "{refusal}"),
        Err(Stop::Unwritten(e)) => Err(e),
    }
}
