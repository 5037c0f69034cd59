// The opening of a run (document 01, 'Options' and 'Refusals', and document 02, orders 3 and 5 to 7): tests
// 1 to 4, 16, 5, 6, 7, 18, 8, and what the family asks. (Marks and stop entries are two lists, as document
// 01 hands them to an opening.)
ghost use Rattle.std.specs.Prelude.{◌≡◌};
ghost use Rattle.rule.specs.Answer.{told, refusal_in};
ghost use Rattle.rule.specs.Order.{first_failed};
ghost use Rattle.pick.specs.Run.{view_state};
ghost use Rattle.pick.specs.Opening.{fresh_run, opening_tests, opening_answer, record_answer};

use crate::run_state::State;
use booking::Counts;
use estimator::Estimator;
use records::RansacOptions;
use rule::Refusal;

// The state of a run of which nothing is read. It tests nothing.
#[tactic(auto, unfolding(crate::specs::Opening::fresh_run, book::specs::Book::fresh, judge::specs::Judging::rule_of))]
pub fn fresh_run<E: Copy, M: Copy>(e: E, o: RansacOptions, n: usize) -> State<E, M>
    ensures { view_state result ≡ fresh_run e o n }
{
    State {
        estimator: e,
        options: o,
        n,
        counts: Counts {
            read: 0,
            empty: 0,
            few: 0,
            scored: 0,
            bound: o.max_iters,
        },
        winner: None,
    }
}

// The tests of an opening, in order.
#[tactic(auto, using(crate::proofs::Order::options_first, estimator::proofs::Run::run_first, estimator::proofs::Order::above_0), unfolding(rule::specs::Order::first_failed, crate::specs::Opening::opening_tests, estimator::specs::Marks::entries))]
fn check_order<E: Estimator>(
    e: E,
    o: RansacOptions,
    marks: &[f64],
    stops: &[u32],
) -> Result<(), Refusal>
    ensures { refusal_in result ≡ first_failed (opening_tests E.family e o marks.now stops.now) }
{
    records::validate(o)?;
    estimator::check_run::<E>(marks)?;
    if stops.len() != estimator::mark_count::<E>(marks) + 1 {
        return Err(Refusal::Stops);
    }
    e.validate()
}

// Opens a run; refused with 2, 3, 4, 16, 5, 6, 7, 18 or 8, in this order, and then by what the family asks.
#[tactic(auto, using(crate::proofs::Order::refuses), unfolding(rule::specs::Order::decided, crate::specs::Opening::opening_answer))]
pub fn open<E: Estimator>(
    e: E,
    o: RansacOptions,
    marks: &[f64],
    stops: &[u32],
) -> Result<State<E, E::Model>, Refusal>
    ensures { told view_state result ≡ opening_answer E.family e o marks.now stops.now }
{
    check_order(e, o, marks, stops)?;
    Ok(fresh_run(e, o, estimator::mark_count::<E>(marks)))
}

// Opens a run by a record of options; refused with 1 too, before the others.
#[tactic(auto, unfolding(rule::specs::Order::first_failed, rule::specs::Order::decided, crate::specs::Opening::opening_answer, crate::specs::Opening::record_answer, records::specs::Options::options_answer, records::specs::Options::options_record))]
pub fn open_record<E: Estimator>(
    e: E,
    bytes: &[u8],
    marks: &[f64],
    stops: &[u32],
) -> Result<State<E, E::Model>, Refusal>
    ensures { told view_state result ≡ record_answer E.family e bytes.now marks.now stops.now }
{
    open(e, records::read_options(bytes)?, marks, stops)
}
