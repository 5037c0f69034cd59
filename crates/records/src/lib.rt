// The records that the other machines write (document 01, 'Options', 'Marks', 'Trials'): options,
// marks and trials, read from bytes.
#![tactic(auto)]

mod marks;
mod options;
mod trial;

pub use marks::read_marks;
pub use options::{RansacOptions, marked, read_options, validate};
pub use trial::{Fitted, marks_formed, one_answer, parts_formed, read_trial};
