// A trial's record: two marks, the fit's nine numbers and the refit's.
ghost use Rattle.std.specs.Prelude.{◌≡◌};
ghost use Rattle.rule.specs.Answer.{refusal_in};
ghost use Rattle.writer.specs.Format.{writer_answer, written};
ghost use Rattle.writer.specs.Formats.{trial_format};

use rule::Refusal;

// Writes a trial's 152 bytes to the front of `out`; refused with 1 and 9 in that order and nothing written.
#[tactic(auto, using(crate::proofs::OfTrial::trial_answered, crate::proofs::OfTrial::trial_laid), unfolding(crate::specs::Format::written, rule::specs::Order::if_passed))]
pub fn write_trial(
    fit_mark: u8,
    refit_mark: u8,
    fit: &[f64],
    refit: &[f64],
    out: &mut [u8],
) -> Result<(), Refusal>
    ensures value { refusal_in result ≡ writer_answer trial_format (record { fit_mark = fit_mark; refit_mark = refit_mark; fit = fit.now; refit = refit.now }) out.old }
    ensures out_after { out.new ≡ written trial_format (record { fit_mark = fit_mark; refit_mark = refit_mark; fit = fit.now; refit = refit.now }) out.old }
{
    if fit.len() != 9
        || refit.len() != 9
        || !records::parts_formed(fit_mark, refit_mark, fit, refit)
    {
        return Err(Refusal::Record);
    }
    if out.len() < 152 {
        return Err(Refusal::Room);
    }
    // The marks, and six zero bytes.
    fields::lay(&mut out[0..8], &[fit_mark, refit_mark, 0, 0, 0, 0, 0, 0]);
    fields::write_all(fit, &mut out[8..80]);
    fields::write_all(refit, &mut out[80..152]);
    Ok(())
}
