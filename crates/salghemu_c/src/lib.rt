// What C calls: the whole run of `salghemu` and the writers of `writer`, exported under their names with
// the same promises. A refusal goes out by its number, and 0 says that there is none.
#![tactic(auto)]

ghost use Rattle.std.specs.Prelude.{◌≡◌, length};
ghost use Rattle.records.specs.Options.{options_of};
ghost use Rattle.records.specs.Marks.{numbers_in};
ghost use Rattle.salghemu.specs.Whole.{run_answer, Gave};
ghost use Rattle.writer.specs.Format.{writer_answer, written};
ghost use Rattle.writer.specs.Formats.{options_format, mark_format, trial_format};

// The whole run: 0 and the winner written, or the number of the refusal and nothing written.
#[unsafe(no_mangle)]
pub extern "C" fn salghemu_run(
    options: &[u8],
    marks: &[u8],
    stops: &[u8],
    trials: &[u8],
    winner: &mut [u8],
    indices: &mut [u8],
) -> u32
    ensures { Gave (run_answer (record { options = options.now; marks = marks.now; stops = stops.now; trials = trials.now }) (length winner.old) (length indices.old)) (options_of options.now) (numbers_in 4 marks.now) winner.old indices.old result winner.new indices.new }
{
    rule::number(salghemu::salghemu_run(options, marks, stops, trials, winner, indices))
}

#[unsafe(no_mangle)]
pub extern "C" fn salghemu_write_options(
    thresh: f64,
    confidence: f64,
    max_iters: u32,
    min_inliers: u32,
    refit_mark: u8,
    ratio: f64,
    out: &mut [u8],
) -> u32
    ensures value { result ≡ writer_answer options_format (record { thresh = thresh; confidence = confidence; max_iters = max_iters; min_inliers = min_inliers; refit_mark = refit_mark; ratio = ratio }) out.old }
    ensures out_after { out.new ≡ written options_format (record { thresh = thresh; confidence = confidence; max_iters = max_iters; min_inliers = min_inliers; refit_mark = refit_mark; ratio = ratio }) out.old }
{
    rule::number(writer::write_options(
        thresh,
        confidence,
        max_iters,
        min_inliers,
        refit_mark,
        ratio,
        out,
    ))
}

#[unsafe(no_mangle)]
pub extern "C" fn salghemu_write_mark(x: f64, y: f64, u: f64, v: f64, out: &mut [u8]) -> u32
    ensures value { result ≡ writer_answer mark_format (record { x = x; y = y; u = u; v = v }) out.old }
    ensures out_after { out.new ≡ written mark_format (record { x = x; y = y; u = u; v = v }) out.old }
{
    rule::number(writer::write_mark(x, y, u, v, out))
}

#[unsafe(no_mangle)]
pub extern "C" fn salghemu_write_trial(
    fit_mark: u8,
    refit_mark: u8,
    fit: &[f64],
    refit: &[f64],
    out: &mut [u8],
) -> u32
    ensures value { result ≡ writer_answer trial_format (record { fit_mark = fit_mark; refit_mark = refit_mark; fit = fit.now; refit = refit.now }) out.old }
    ensures out_after { out.new ≡ written trial_format (record { fit_mark = fit_mark; refit_mark = refit_mark; fit = fit.now; refit = refit.now }) out.old }
{
    rule::number(writer::write_trial(fit_mark, refit_mark, fit, refit, out))
}
