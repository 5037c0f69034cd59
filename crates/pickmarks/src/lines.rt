// The printed lines (document 01, 'Sheets to try'). Counts and places are decimal; a root mean square
// is its bits, in 16 hexadecimal digits.
use booking::Counts;
use pick::{Outcome, State, Winner};
use sheet::{Model, Sheet};
use std::{fmt, io};

// A double, as its bits. (`cases` has one that writes a NaN as such; here it is its bits.)
#[derive(Clone, Copy)]
struct Bits(f64);

impl fmt::Display for Bits {
    fn fmt<W: fmt::Write>(&self, f: &mut fmt::Formatter<W>) -> fmt::Result {
        let bits = fields::bits_of(self.0);
        write!(f, "{bits:016x}")
    }
}

// The line of a trial, by its number, or of its refusal.
#[derive(Clone, Copy)]
pub(crate) struct TrialLine {
    pub number: u32,
    pub outcome: Outcome,
}

impl fmt::Display for TrialLine {
    fn fmt<W: fmt::Write>(&self, f: &mut fmt::Formatter<W>) -> fmt::Result {
        let number = self.number;
        match self.outcome {
            Outcome::Refused(refusal) => write!(f, "{refusal}"),
            Outcome::Empty => write!(f, "{number} empty - -"),
            Outcome::Few(count) => write!(f, "{number} few {count} -"),
            Outcome::Held(count, rms) => write!(f, "{number} held {count} {}", Bits(rms)),
            Outcome::Won(count, rms) => write!(f, "{number} won {count} {}", Bits(rms)),
        }
    }
}

fn print_indices(rt: &impl Print, indices: &[u32]) -> io::Result<()> {
    rt.print("indices")?;
    for i in indices {
        print!(rt; " {i}")?;
    }
    rt.print("\n")
}

// The lines of a winner that is held. The indices are never refused here: the marks are those of the
// opening, and there is a place for each (`after_opening` of `pick` promises that).
#[tactic(auto, using(std::proofs::lemmas::Grind::common_steps, pick::proofs::Written::count_inside))]
fn print_held(
    rt: &impl Print,
    s: State<Sheet, Model>,
    w: Winner<Model>,
    marks: &[f64],
) -> io::Result<()> {
    println!(rt; "winner {} {} {}", w.number, w.count, Bits(w.rms))?;
    // no heap, so there is a place for each mark of the longest run
    let mut indices = [0u32; 2000];
    match pick::winner_indices(s, marks, &mut indices) {
        Ok(count) => print_indices(rt, &indices[..count]),
        Err(refusal) => println!(rt; "{refusal}"),
    }
}

pub(crate) fn print_winner(
    rt: &impl Print,
    s: State<Sheet, Model>,
    marks: &[f64],
) -> io::Result<()> {
    match s.winner {
        None => rt.print("winner none\n"),
        Some(w) => print_held(rt, s, w, marks),
    }
}

pub(crate) fn print_counts(rt: &impl Print, c: Counts) -> io::Result<()> {
    println!(rt; "counts {} {} {} {}", c.read, c.empty, c.few, c.scored)
}
