// The writer of records (document 02, order 1): options, a mark or a trial from plain numbers, one
// record at a time, into a lent buffer. What a reader of the record would refuse isn't written. By order 5
// marks and trials stay the sheet's; options are any family's.
#![tactic(auto)]

mod mark;
mod options;
mod theorems;
mod trial;

pub use mark::write_mark;
pub use options::write_options;
pub use theorems::{
    mark_faithful, mark_reader, options_faithful, options_reader, short_made, trial_faithful,
    trial_reader,
};
pub use trial::write_trial;
