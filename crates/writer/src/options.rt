// The options' record.
ghost use Rattle.std.specs.Prelude.{◌≡◌};
ghost use Rattle.rule.specs.Answer.{refusal_in};
ghost use Rattle.writer.specs.Format.{writer_answer, written};
ghost use Rattle.writer.specs.Formats.{options_format};

use fields::Field;
use records::RansacOptions;
use rule::Refusal;

// Writes the options' 40 bytes to the front of `out`; refused with 1 for a mark other than 0 or 1, 2, 3,
// 4, 16 and 9 in that order, and nothing written.
#[tactic(auto, using(crate::proofs::OfOptions::options_answered, crate::proofs::OfOptions::options_laid), unfolding(crate::specs::Format::written, rule::specs::Order::if_passed))]
pub fn write_options(
    thresh: f64,
    confidence: f64,
    max_iters: u32,
    min_inliers: u32,
    refit_mark: u8,
    ratio: f64,
    out: &mut [u8],
) -> Result<(), Refusal>
    ensures value { refusal_in result ≡ writer_answer options_format (record { thresh = thresh; confidence = confidence; max_iters = max_iters; min_inliers = min_inliers; refit_mark = refit_mark; ratio = ratio }) out.old }
    ensures out_after { out.new ≡ written options_format (record { thresh = thresh; confidence = confidence; max_iters = max_iters; min_inliers = min_inliers; refit_mark = refit_mark; ratio = ratio }) out.old }
{
    records::validate(RansacOptions {
        thresh,
        confidence,
        max_iters,
        min_inliers,
        refit: records::marked(refit_mark)?,
        ratio,
    })?;
    if out.len() < 40 {
        return Err(Refusal::Room);
    }
    fields::write_all(&[thresh, confidence], &mut out[0..16]);
    fields::write_all(&[max_iters, min_inliers], &mut out[16..24]);
    // The mark, and seven zero bytes.
    fields::lay(&mut out[24..32], &[refit_mark, 0, 0, 0, 0, 0, 0, 0]);
    ratio.put_to(&mut out[32..40]);
    Ok(())
}
