// Replays a fixed list of the original Rust's answers against the proved entries of a standing form,
// with no Rust at hand. harness/oracle/src/forms.rs makes the list, data/forms.bin, and has its layout:
// records of 256 little-endian words, of which the first is the kind. For each kind it prints how many
// answers agree, bit for bit, and how many there are.
#![tactic(auto)]

ghost use Rattle.std.specs.Prelude.{◌<◌};

use form::{Camera, Mark, Model};
use linalg_3d::Normalized;
use rule::Refusal;
use std::fs::File;
use std::{array, io};
use tally::{Answers, Kind, Report};

// Numbers of a record, whose words start at `at`.
fn numbers_agree(record: &[u8], at: usize, numbers: &[f64]) -> bool
    requires { at < 256 }
{
    numbers.iter().enumerate().all(|(i, x)| tally::same(*x, fields::double_at(record, at + i)))
}

// Whether an answer is refused as a record says: word 3 is the refusal's number, or 0.
fn refusal_agrees<T: Copy>(record: &[u8], answer: Result<T, Refusal>) -> bool {
    fields::long_at(record, 3) == u64::from(rule::number(answer))
}

// The candidate, the camera and the ratio that marks are measured by.
fn model(record: &[u8]) -> Model {
    Model::from(array::from_fn(|i| fields::double_at(record, 4 + i)))
}

fn camera(record: &[u8]) -> Camera {
    Camera::from(array::from_fn(|i| fields::double_at(record, 16 + i)))
}

fn ratio(record: &[u8]) -> f64 {
    fields::double_at(record, 20)
}

// An entry over marks with a lent list: word 1 says how many numbers the marks have, word 2 how long the
// list is. It holds 7.0 at each place before the call, and after it the words from 58 on.
fn lent_agrees<F: Fn(&[f64], &mut [f64]) -> Result<bool, Refusal>>(record: &[u8], entry: F) -> bool
    requires { F.IsAlwaysCallable entry }
{
    let (len, room) = (fields::long_at(record, 1), fields::long_at(record, 2));
    if len > 37 || room > 169 {
        return false;
    }
    let input: [f64; 37] = array::from_fn(|i| fields::double_at(record, 21 + i));
    // no heap, so there is room for the longest list of a record
    let mut lent = [7.0; 169];
    let lent = &mut lent[..room as usize];
    let answer = entry(&input[..len as usize], lent);
    refusal_agrees(record, answer) && answer.unwrap_or(true) && numbers_agree(record, 58, lent)
}

fn matrix_agrees(record: &[u8], n: Normalized) -> bool {
    numbers_agree(record, 227, &n.matrix[0].cells)
        && numbers_agree(record, 231, &n.matrix[1].cells)
        && numbers_agree(record, 235, &n.matrix[2].cells)
        && numbers_agree(record, 239, &n.matrix[3].cells)
}

// Of a refused call there is no matrix: zeros.
fn normalising_agrees(record: &[u8]) -> bool {
    lent_agrees(record, |marks, lent| {
        linalg_3d::normalize_points_3d(marks, lent).map(|n| matrix_agrees(record, n))
    }) && (fields::long_at(record, 3) == 0 || fields::zero_bytes(record, 8 * 227, 8 * 243))
}

fn rows_agree(record: &[u8]) -> bool {
    lent_agrees(record, |marks, lent| {
        dlt::dlt_rows(marks, lent).map(|()| true)
    })
}

// Word 227 is the distance; where the mark is beyond it is 0, and word 228 is 1.
fn measure_agrees(record: &[u8], measured: Option<f64>) -> bool {
    let beyond = fields::long_at(record, 228);
    match measured {
        Some(d) => beyond == 0 && tally::same(d, fields::double_at(record, 227)),
        None => beyond == 1 && fields::long_at(record, 227) == 0,
    }
}

fn distance_agrees(record: &[u8]) -> bool {
    let mark = Mark::from(array::from_fn(|i| fields::double_at(record, 21 + i)));
    let answer = form::distance(camera(record), model(record), mark, ratio(record));
    refusal_agrees(record, answer)
        && answer.map_or(true, |measured| measure_agrees(record, measured))
}

// Measuring refuses nothing; word 227 says how many marks are beyond.
fn measuring_agrees(record: &[u8]) -> bool {
    lent_agrees(record, |marks, lent| {
        let beyond = measure::squared_residuals(
            camera(record),
            model(record),
            ratio(record),
            marks,
            lent,
        );
        Ok(fields::long_at(record, 227) == beyond as u64)
    })
}

// The entry of each kind of record.
struct Entries;

impl Answers for Entries {
    // Nothing is promised of an answer here; the entries have contracts of their own.
    ghost says = { λ kind bytes right. Unit {0} };

    fn agrees(kind: Kind, record: &[u8]) -> bool {
        match kind {
            Kind::First => normalising_agrees(record),
            Kind::Second => rows_agree(record),
            Kind::Third => distance_agrees(record),
            Kind::Fourth => measuring_agrees(record),
        }
    }
}

fn main(rt: HostRuntime) -> io::Result<()> {
    let mut file = File::open(&rt, "forms.bin")?;
    // no heap, so a record has its places here
    let scores = tally::replay_all::<Entries, _>(&mut file, &mut [0; 2048]);
    let names = ["normalisings", "rows", "distances", "measurings"];
    print!(&rt; "{}", Report { names, scores })
}
