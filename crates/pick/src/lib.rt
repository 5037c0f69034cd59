// The picker, one call at a time (document 01, 'Trials' and 'Picking rule'): the opening of a run, a
// trial, and the indices of the winner's marks. The state goes from call to call by value.
#![tactic(auto)]

mod advancing;
mod before_end;
mod indices;
mod opening;
mod run_state;
mod theorems;
mod trials;

pub use advancing::advance;
pub use indices::winner_indices;
pub use opening::{fresh_run, open, open_record};
pub use run_state::{Outcome, State, Tried, Winner};
pub use theorems::{after_opening, one_answer};
pub use trials::{step, trial};
