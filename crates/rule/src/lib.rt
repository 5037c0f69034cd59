// The refusals of documents 01 and 02 by name: every entry that turns a call down answers one of them.
// Their numbers are those that the documents give; `specs/Refusal.antt` has what each of them means.
#![tactic(auto)]

ghost use Rattle.std.specs.Prelude.{◌≡◌};
ghost use Rattle.rule.specs.Refusal.{number_of};
ghost use Rattle.rule.specs.Answer.{refusal_in, OneItself};

use std::error::Error;
use std::fmt;

#[derive(Clone, Copy, Debug, PartialEq, Eq, Hash)]
pub enum Refusal {
    Record = 1,
    Thresh = 2,
    Confidence = 3,
    Iters = 4,
    Shape = 5,
    Point = 6,
    Few = 7,
    Stops = 8,
    Room = 9,
    Ended = 10,
    NoWinner = 11,
    Spread = 12,
    SheetLine = 13,
    PixelLine = 14,
    Number = 15,
    Ratio = 16,
    Camera = 17,
    Double = 18,
    // From here on they are named, and no call answers them yet.
    Narrow = 19,
    Path = 20,
    Plan = 21,
    Ladder = 22,
    Triangle = 23,
}

impl From<Refusal> for u32 {
    ghost from_gives = { λ e n. n ≡ number_of e };

    fn from(e: Refusal) -> u32 {
        e as u32
    }
}

// As the programs print it.
impl fmt::Display for Refusal {
    fn fmt<W: fmt::Write>(&self, f: &mut fmt::Formatter<W>) -> fmt::Result {
        let number = u32::from(*self);
        write!(f, "refused {number}")
    }
}

impl Error for Refusal {}

// 0, or the number of the refusal: as C is answered.
pub fn number<T: Copy>(answer: Result<T, Refusal>) -> u32
    ensures { result ≡ refusal_in answer }
{
    match answer {
        Ok(_) => 0,
        Err(refusal) => u32::from(refusal),
    }
}

/// That a contract on what a `Result` stands for leaves one answer, where its value stands for itself.
#[tactic(auto, using(crate::proofs::Views::answered_one))]
pub fn one_answer<T>()
    ensures { OneItself T }
{}
