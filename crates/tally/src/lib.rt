// Replayed answers, counted: how many agree, of how many. For the programs that replay lists of the
// original Rust's answers.
#![tactic(auto)]

ghost use Rattle.std.specs.Prelude.{◌≡◌, Bool, List, ℕ, eqb, length};
ghost use Rattle.std.specs.Float.{binary64};
ghost use Rattle.std.specs.Float.Ieee.{to_bits};
ghost use Rattle.tally.specs.Tally.{one_more, score_after, no_scores, scores_after, Decodes, Replayed};

use std::error::Error;
use std::fmt;
use std::io::Read;

// The kind of a record, which its first word says: a list has four.
#[derive(Clone, Copy, Debug, PartialEq, Eq, Hash)]
pub enum Kind {
    First,
    Second,
    Third,
    Fourth,
}

// The first word of a record of no kind.
#[derive(Clone, Copy, Debug, PartialEq, Eq, Hash)]
pub struct UnknownKind(pub u64);

impl TryFrom<u64> for Kind {
    type Error = UnknownKind;

    ghost try_from_gives = { Decodes };

    fn try_from(word: u64) -> Result<Kind, UnknownKind> {
        match word {
            1 => Ok(Kind::First),
            2 => Ok(Kind::Second),
            3 => Ok(Kind::Third),
            4 => Ok(Kind::Fourth),
            _ => Err(UnknownKind(word)),
        }
    }
}

impl fmt::Display for UnknownKind {
    fn fmt<W: fmt::Write>(&self, f: &mut fmt::Formatter<W>) -> fmt::Result {
        write!(f, "no kind of record begins with {}", self.0)
    }
}

impl Error for UnknownKind {}

// How many answers agree, of how many.
#[derive(Clone, Copy)]
pub struct Score {
    pub right: u64,
    pub all: u64,
}

// One more, up to a number that no list reaches. (std's saturating sum ends at another one.)
#[tactic(auto, unfolding(crate::specs::Tally::one_more))]
fn more(n: u64) -> u64
    ensures { result ≡ one_more n }
{
    if n < 1000000 { n + 1 } else { n }
}

impl Score {
    // The score with one answer more.
    #[tactic(auto, unfolding(crate::specs::Tally::score_after))]
    fn after(self, agrees: bool) -> Score
        ensures { result ≡ score_after self agrees }
    {
        Score {
            right: if agrees { more(self.right) } else { self.right },
            all: more(self.all),
        }
    }
}

impl fmt::Display for Score {
    fn fmt<W: fmt::Write>(&self, f: &mut fmt::Formatter<W>) -> fmt::Result {
        write!(f, "{} of {}", self.right, self.all)
    }
}

// The scores of a list of answers: of its four kinds, and of records that are of none.
#[derive(Clone, Copy)]
pub struct Scores {
    pub kinds: [Score; 4],
    pub unknown: Score,
}

impl Scores {
    // The scores of an empty list.
    #[tactic(auto, unfolding(crate::specs::Tally::no_scores))]
    pub fn none() -> Scores
        ensures { result ≡ no_scores }
    {
        let none = Score { right: 0, all: 0 };
        Scores {
            kinds: [none; 4],
            unknown: none,
        }
    }

    // The scores with one answer more, of a kind or of none.
    #[tactic(auto, unfolding(crate::specs::Tally::scores_after))]
    pub fn after(self, kind: Option<Kind>, agrees: bool) -> Scores
        ensures { result ≡ scores_after self kind agrees }
    {
        let mut next = self;
        match kind {
            Some(k) => next.kinds[k as usize] = next.kinds[k as usize].after(agrees),
            None => next.unknown = next.unknown.after(agrees),
        }
        next
    }
}

// The scores as a program prints them: a line for each kind, by its name.
#[derive(Clone, Copy)]
pub struct Report<'a> {
    pub names: [&'a str; 4],
    pub scores: Scores,
}

impl<'a> fmt::Display for Report<'a> {
    fn fmt<W: fmt::Write>(&self, f: &mut fmt::Formatter<W>) -> fmt::Result {
        for (name, score) in self.names.iter().zip(&self.scores.kinds) {
            writeln!(f, "{name} {score}")?;
        }
        writeln!(f, "unknown kinds {}", self.scores.unknown)
    }
}

// The same bits; all NaNs count as one.
pub fn same(x: f64, y: f64) -> bool
    ensures { result ≡ eqb (to_bits binary64 x) (to_bits binary64 y) }
{
    fields::bits_of(x) == fields::bits_of(y)
}

// What a list is replayed against.
pub trait Answers {
    ghost use Rattle.tally.specs.declared.Kind.{Kind};

    // What is known of an answer to a record of a kind, by its bytes.
    ghost says: { Kind → List ℕ → Bool → Type 0 };

    // Whether the answer that a record of a kind holds is right.
    fn agrees(kind: Kind, bytes: &[u8]) -> bool
        ensures { says kind bytes.now result };
}

// The scores of a list of records, each as long as the buffer, to its end, or up to a number of
// records that no list has. A read that fails is its end.
#[tactic(auto, using(crate::proofs::Records::whole_none, crate::proofs::Records::whole_rest, crate::proofs::Records::whole_known, crate::proofs::Records::whole_unknown, crate::proofs::Records::whole_all))]
pub fn replay_all<A: Answers, R: Read>(file: &mut R, buffer: &mut [u8]) -> Scores
    ensures { Replayed (length buffer.old) A.says (R.remaining file.old) (R.remaining file.new) result }
{
    let mut scores = Scores::none();
    'records: for _ in 0..1000000u32 {
        if reading::read_full(file, buffer) < buffer.len() {
            return scores;
        }
        let word = fields::long_at(buffer, 0);
        scores = match Kind::try_from(word) {
            Ok(kind) => scores.after(Some(kind), A::agrees(kind, buffer)),
            Err(_) => scores.after(None, false),
        };
    }
    scores
}
