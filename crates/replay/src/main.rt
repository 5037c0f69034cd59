// Replays a fixed list of the original Rust's answers against the proved leaves, with no Rust at
// hand. harness/oracle/src/answers.rs makes the list, data/answers.bin, and has its layout: records
// of twelve little-endian words, of which the first is the kind. For each kind it prints how many
// answers agree, bit for bit, and how many there are.
#![tactic(auto)]

use numbers::Quadratic;
use std::fs::File;
use std::{array, io};
use tally::{Answers, Kind, Report};

// Whether each leaf answers what a record says.

fn root_agrees(record: &[u8]) -> bool {
    let answer = root::root(fields::double_at(record, 1));
    fields::long_at(record, 2) == u64::from(rule::number(answer))
        && answer.map_or(true, |y| tally::same(y, fields::double_at(record, 3)))
}

fn quadratic_agrees(record: &[u8]) -> bool {
    let count = fields::long_at(record, 4);
    let first = fields::double_at(record, 5);
    let answer = numbers::solve_quadratic_real(
        fields::double_at(record, 1),
        fields::double_at(record, 2),
        fields::double_at(record, 3),
    );
    match answer {
        Ok(Quadratic::NoRoot) => count == 0,
        Ok(Quadratic::One(x)) => count == 1 && tally::same(x, first),
        Ok(Quadratic::Two(x, y)) => count == 2
            && tally::same(x, first)
            && tally::same(y, fields::double_at(record, 6)),
        Err(e) => count == u64::from(u32::from(e)),
    }
}

// A test of the numbers of a rank or a finite record: it has six, and word 4 says how many count.
fn tested<F: Fn(&[f64]) -> bool>(record: &[u8], test: F) -> bool
    requires { F.IsAlwaysCallable test }
{
    let len = fields::long_at(record, 4);
    if len > 6 {
        return false;
    }
    let all: [f64; 6] = array::from_fn(|i| fields::double_at(record, 5 + i));
    test(&all[..len as usize]) == (fields::long_at(record, 11) == 1)
}

fn rank_agrees(record: &[u8]) -> bool {
    tested(record, |values| {
        numbers::dlt_rank_ok(
            values,
            fields::long_at(record, 1) as usize,
            fields::long_at(record, 2) as usize,
            fields::double_at(record, 3),
        )
    })
}

fn finite_agrees(record: &[u8]) -> bool {
    tested(record, |values| numbers::ensure_finite(values))
}

// The leaf of each kind of record.
struct Leaves;

impl Answers for Leaves {
    // Nothing is promised of an answer here; the leaves have contracts of their own.
    ghost says = { λ kind bytes right. Unit {0} };

    fn agrees(kind: Kind, record: &[u8]) -> bool {
        match kind {
            Kind::First => root_agrees(record),
            Kind::Second => quadratic_agrees(record),
            Kind::Third => rank_agrees(record),
            Kind::Fourth => finite_agrees(record),
        }
    }
}

fn main(rt: HostRuntime) -> io::Result<()> {
    let mut file = File::open(&rt, "answers.bin")?;
    // no heap, so a record has its places here
    let scores = tally::replay_all::<Leaves, _>(&mut file, &mut [0; 96]);
    let names = ["roots", "quadratics", "ranks", "finite lists"];
    print!(&rt; "{}", Report { names, scores })
}
