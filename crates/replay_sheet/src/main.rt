// Replays a fixed list of the original Rust's answers against the proved entries of a sheet, with
// no Rust at hand. harness/oracle/src/sheets.rs makes the list, data/sheets.bin, and has its
// layout: records of 128 little-endian words, of which the first is the kind. For each kind it
// prints how many answers agree, bit for bit, and how many there are.
#![tactic(auto)]

ghost use Rattle.std.specs.Prelude.{◌<◌};

use linalg::Normalized;
use rule::Refusal;
use sheet::{Mark, Model, Points, Side};
use std::fs::File;
use std::{array, io};
use tally::{Answers, Kind, Report};

// Numbers of a record, whose words start at `at`.
fn numbers_agree(record: &[u8], at: usize, numbers: &[f64]) -> bool
    requires { at < 128 }
{
    numbers.iter().enumerate().all(|(i, x)| tally::same(*x, fields::double_at(record, at + i)))
}

// Whether an answer is refused as a record says: word 4 is the refusal's number, or 0.
fn refusal_agrees<T: Copy>(record: &[u8], answer: Result<T, Refusal>) -> bool {
    fields::long_at(record, 4) == u64::from(rule::number(answer))
}

// The input of an entry over marks.
fn input(record: &[u8]) -> [f64; 20] {
    array::from_fn(|i| fields::double_at(record, 5 + i))
}

// The points that a record asks for: word 2 says how many of the input's numbers there are.
fn points<'a>(record: &[u8], input: &'a [f64; 20]) -> Option<Points<'a>> {
    let len = fields::long_at(record, 2);
    if len > 20 {
        return None;
    }
    let marks = &input[..len as usize];
    let side = Side::from(fields::long_at(record, 1));
    Some(Points { marks, side })
}

// An entry with a lent list: word 3 says how long it is. It holds 7.0 at each place before the call,
// and after it the words from 25 on.
fn lent_agrees<F: Fn(Points, &mut [f64]) -> Result<bool, Refusal>>(record: &[u8], entry: F) -> bool
    requires { F.IsAlwaysCallable entry }
{
    let room = fields::long_at(record, 3);
    let input = input(record);
    let Some(points) = points(record, &input) else {
        return false;
    };
    if room > 91 {
        return false;
    }
    // no heap, so there is room for the longest list of a record
    let mut lent = [7.0; 91];
    let lent = &mut lent[..room as usize];
    let answer = entry(points, lent);
    refusal_agrees(record, answer) && answer.unwrap_or(true) && numbers_agree(record, 25, lent)
}

fn matrix_agrees(record: &[u8], n: Normalized) -> bool {
    numbers_agree(record, 116, &n.matrix[0].cells)
        && numbers_agree(record, 119, &n.matrix[1].cells)
        && numbers_agree(record, 122, &n.matrix[2].cells)
}

// Of a refused call there is no matrix: zeros.
fn normalising_agrees(record: &[u8]) -> bool {
    lent_agrees(record, |points, lent| {
        linalg::normalize_points_2d(points, lent).map(|n| matrix_agrees(record, n))
    }) && (fields::long_at(record, 4) == 0 || fields::zero_bytes(record, 8 * 116, 8 * 125))
}

fn collinear_agrees(record: &[u8]) -> bool {
    let input = input(record);
    let Some(points) = points(record, &input) else {
        return false;
    };
    let told = fields::long_at(record, 116);
    let answer = line::points_are_collinear(points);
    refusal_agrees(record, answer) && answer.map_or(true, |yes| told == u64::from(yes))
}

fn rows_agree(record: &[u8]) -> bool {
    lent_agrees(
        record,
        |points, lent| homography::dlt_rows(points.marks, lent).map(|()| true),
    )
}

// A distance's input: the model, then the mark, then the ratio.
fn model(record: &[u8]) -> Model {
    Model::from(array::from_fn(|i| fields::double_at(record, 5 + i)))
}

fn mark(record: &[u8]) -> Mark {
    Mark::from(array::from_fn(|i| fields::double_at(record, 14 + i)))
}

// Word 116 is the distance; where the mark is beyond it is 0, and word 117 is 1.
fn measure_agrees(record: &[u8], measured: Option<f64>) -> bool {
    let beyond = fields::long_at(record, 117);
    match measured {
        Some(d) => beyond == 0 && tally::same(d, fields::double_at(record, 116)),
        None => beyond == 1 && fields::long_at(record, 116) == 0,
    }
}

fn distance_agrees(record: &[u8]) -> bool {
    let ratio = fields::double_at(record, 18);
    let answer = sheet::distance(model(record), mark(record), ratio);
    refusal_agrees(record, answer)
        && answer.map_or(true, |measured| measure_agrees(record, measured))
}

// The entry of each kind of record.
struct Entries;

impl Answers for Entries {
    // Nothing is promised of an answer here; the entries have contracts of their own.
    ghost says = { λ kind bytes right. Unit {0} };

    fn agrees(kind: Kind, record: &[u8]) -> bool {
        match kind {
            Kind::First => normalising_agrees(record),
            Kind::Second => collinear_agrees(record),
            Kind::Third => rows_agree(record),
            Kind::Fourth => distance_agrees(record),
        }
    }
}

fn main(rt: HostRuntime) -> io::Result<()> {
    let mut file = File::open(&rt, "sheets.bin")?;
    // no heap, so a record has its places here
    let scores = tally::replay_all::<Entries, _>(&mut file, &mut [0; 1024]);
    let names = ["normalisings", "collinear", "rows", "distances"];
    print!(&rt; "{}", Report { names, scores })
}
