// The number leaves of document 01 that need no marks, over the root: magnitudes and finiteness, the
// quadratic (`solve_quadratic_real`) and the rank test (`dlt_rank_ok`); and the row ratio of document 02.
#![tactic(auto)]

mod finite;
mod quadratic;
mod rank;
mod ratio;

pub use finite::{abs, ensure_finite, is_finite, within};
pub use quadratic::{Quadratic, one_answer, solve_quadratic_real};
pub use rank::dlt_rank_ok;
pub use ratio::{ratio_accepted, squared_off};
