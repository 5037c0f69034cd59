// The options of a run (document 01, 'Options'; `RansacOptions` of ransac.rs, without the seed), with the
// row ratio of document 02, order 3.
ghost use Rattle.std.specs.Prelude.{◌≡◌};
ghost use Rattle.rule.specs.Answer.{answered, refusal_in};
ghost use Rattle.rule.specs.Order.{first_failed};
ghost use Rattle.records.specs.Options.{mark_answer, usual_options, options_answer, options_tests};

use rule::Refusal;

#[derive(Clone, Copy)]
pub struct RansacOptions {
    // the largest distance of a mark that agrees
    pub thresh: f64,
    // of the stop list: the host made it with this, nothing here reads it
    pub confidence: f64,
    pub max_iters: u32,
    pub min_inliers: u32,
    // whether a trial's refit may stand in for its fit: a flag of the options by document 01
    pub refit: bool,
    // what a difference along v is multiplied by
    pub ratio: f64,
}

impl RansacOptions {
    pub const CONFIDENCE: f64 = 0.99;

    pub const MAX_ITERS: u32 = 1000;

    pub const MIN_INLIERS: u32 = 12;

    pub const REFIT: bool = true;

    pub const RATIO: f64 = 1.0;

    // The defaults around a threshold. It tests nothing: the opening does.
    #[tactic(auto, unfolding(crate::specs::Options::usual_options))]
    pub fn new(thresh: f64) -> RansacOptions
        ensures { result ≡ usual_options thresh }
    {
        RansacOptions {
            thresh,
            confidence: RansacOptions::CONFIDENCE,
            max_iters: RansacOptions::MAX_ITERS,
            min_inliers: RansacOptions::MIN_INLIERS,
            refit: RansacOptions::REFIT,
            ratio: RansacOptions::RATIO,
        }
    }
}

// Whether a mark byte is set; refused with 1 where it is no mark.
pub fn marked(byte: u8) -> Result<bool, Refusal>
    ensures { answered result ≡ mark_answer byte }
{
    match byte {
        0 => Ok(false),
        1 => Ok(true),
        _ => Err(Refusal::Record),
    }
}

// The options of a record of 40 bytes, or of 32 without a ratio; refused with 1 where it is none. The
// numbers are not tested.
#[tactic(auto, using(crate::proofs::Formed::options_read))]
pub fn read_options(bytes: &[u8]) -> Result<RansacOptions, Refusal>
    ensures { answered result ≡ options_answer bytes.now }
{
    let ratio = match bytes.len() {
        32 => RansacOptions::RATIO,
        40 => fields::double_at(bytes, 4),
        _ => return Err(Refusal::Record),
    };
    let refit = marked(fields::byte_at(bytes, 24))?;
    if !fields::zero_bytes(bytes, 25, 32) {
        return Err(Refusal::Record);
    }
    Ok(RansacOptions {
        thresh: fields::double_at(bytes, 0),
        confidence: fields::double_at(bytes, 1),
        max_iters: fields::word_at(bytes, 4),
        min_inliers: fields::word_at(bytes, 5),
        refit,
        ratio,
    })
}

// The tests of the options' numbers, in order: refused by the first that fails.
#[tactic(auto, unfolding(rule::specs::Order::first_failed, crate::specs::Options::options_tests, crate::specs::Options::thresh, crate::specs::Options::confidence, crate::specs::Options::iters, numbers::specs::Ratio::ratio))]
pub fn validate(o: RansacOptions) -> Result<(), Refusal>
    ensures { refusal_in result ≡ first_failed (options_tests o) }
{
    if !(numbers::is_finite(o.thresh) && 0.0 < o.thresh) {
        return Err(Refusal::Thresh);
    }
    if !(0.0 < o.confidence && o.confidence < 1.0) {
        return Err(Refusal::Confidence);
    }
    if o.max_iters == 0 || 100_000 < o.max_iters {
        return Err(Refusal::Iters);
    }
    if !numbers::ratio_accepted(o.ratio) {
        return Err(Refusal::Ratio);
    }
    Ok(())
}
