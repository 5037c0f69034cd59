// A picker's states and answers as words, for the comparison's entries of every family: what no family
// changes. A family has its own number of words, since its candidate has its own number of numbers.
#![tactic(auto)]

mod answers;
mod reading;
mod writing;

pub use answers::{NO_STATE, NO_WORDS, indexed, put, put_opened};
pub use reading::{number_at, state_in};
pub use writing::{count_words, held_words, made_words, number_words, told_words};
