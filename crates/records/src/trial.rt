// One trial as the fitter records it (document 01, 'Trials', and document 02, order 5): a fit and perhaps
// its refit, or none.
ghost use Rattle.std.specs.Prelude.{◌≡◌};
ghost use Rattle.rule.specs.Answer.{told, OneAnswer};
ghost use Rattle.records.specs.Trial.{marks_formed, parts_formed, trial_answer, view_recorded};

use estimator::Estimator;
use rule::Refusal;

// A trial's fit and, where it has one, its refit.
#[derive(Clone, Copy)]
pub struct Fitted<M> {
    pub fit: M,
    pub refit: Option<M>,
}

// Whether each of a trial's marks is 0 or 1, and there is no refit without a fit, which is one test of
// their order. They are bytes and no flags, since any byte may come: from a record, and from C by way
// of the writer.
#[tactic(auto, unfolding(crate::specs::Trial::marks_formed))]
pub fn marks_formed(fit: u8, refit: u8) -> bool
    ensures { result ≡ marks_formed fit refit }
{
    fit <= 1 && refit <= fit
}

// Whether two marks, the numbers of a fit and those of a refit make a trial.
#[tactic(auto, unfolding(crate::specs::Trial::parts_formed))]
pub fn parts_formed(fit_mark: u8, refit_mark: u8, fit: &[f64], refit: &[f64]) -> bool
    ensures { result ≡ parts_formed fit_mark refit_mark fit.now refit.now }
{
    marks_formed(fit_mark, refit_mark)
        && estimator::numbers_formed(fit_mark == 1, fit)
        && estimator::numbers_formed(refit_mark == 1, refit)
}

// The trial of a record, none where it has no fit; refused with 1 where it is no record.
#[tactic(auto, using(crate::proofs::Formed::trial_read, crate::proofs::Formed::other_length), unfolding(fields::specs::Fields::byte_at))]
pub fn read_trial<E: Estimator>(bytes: &[u8]) -> Result<Option<Fitted<E::Model>>, Refusal>
    ensures { told view_recorded result ≡ trial_answer E.family bytes.now }
{
    let k = 8 * E::SIZE;
    if bytes.len() != 8 + 2 * k || !fields::zero_bytes(bytes, 2, 8) {
        return Err(Refusal::Record);
    }
    let (fit_mark, refit_mark) = (bytes[0], bytes[1]);
    if !marks_formed(fit_mark, refit_mark) {
        return Err(Refusal::Record);
    }
    let fit = E::read_model(fit_mark == 1, &bytes[8..]).ok_or(Refusal::Record)?;
    let refit = E::read_model(refit_mark == 1, &bytes[8 + k..]).ok_or(Refusal::Record)?;
    let fitted = Fitted {
        fit,
        refit: (refit_mark == 1).then_some(refit),
    };
    Ok((fit_mark == 1).then_some(fitted))
}

/// That the contract on what the answer of `read_trial` stands for leaves one answer.
#[tactic(auto, using(crate::proofs::View::recorded_one))]
pub fn one_answer<M>()
    ensures { OneAnswer (view_recorded {M = M}) }
{}
