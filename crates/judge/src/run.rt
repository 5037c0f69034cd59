// A fit and its refit over the marks of a run.
ghost use Rattle.std.specs.Prelude.{◌≡◌, ◌≤◌, Option, length};
ghost use Rattle.rule.specs.Lists.{filled};
ghost use Rattle.book.specs.Score.{count_under, stop_at, judge_trial, beyond_fit};
ghost use Rattle.records.specs.Trial.{refitted_by, view_recorded};
ghost use Rattle.estimator.specs.Family.{distances_of, beyond_of, squares_of};
ghost use Rattle.judge.specs.Judging.{rule_of, rms_under, supported, judged_as, squares_after};

use crate::{Judgement, Support, Verdict};
use estimator::Estimator;
use records::{Fitted, RansacOptions};

// The options, and marks and stop entries that have passed a call's tests: few enough marks for a list of
// squares.
#[derive(Drop)]
pub(crate) struct Run<'a, E> {
    pub estimator: E,
    pub options: RansacOptions,
    pub marks: &'a [f64],
    pub stops: &'a [u32],
    ghost few_enough: { length marks.now ≤ 8000 },
}

// How many marks are within the threshold under a model, and how many are beyond.
#[derive(Clone, Copy)]
struct Counted {
    within: u32,
    beyond: u32,
}

impl<'a, E: Estimator> Run<'a, E> {
    // max_iters at count 0, else the entry of the count.
    #[tactic(auto, unfolding(book::specs::Score::stop_at, crate::specs::Judging::rule_of))]
    fn stop_at(&self, count: u32) -> u32
        ensures { result ≡ stop_at (rule_of self.now.options) (distances_of E.family self.now.estimator self.now.options.ratio self.now.marks.now) self.now.stops.now count }
    {
        if count == 0 {
            return self.options.max_iters;
        }
        self.stops.get(count as usize).copied().unwrap_or(0)
    }

    // A model and its count.
    fn support(&self, model: E::Model, count: u32) -> Support<E::Model>
        ensures { result ≡ record { model = model; count = count; stop = stop_at (rule_of self.now.options) (distances_of E.family self.now.estimator self.now.options.ratio self.now.marks.now) self.now.stops.now count } }
    {
        Support {
            model,
            count,
            stop: self.stop_at(count),
        }
    }

    // Measures a model, and counts the marks that are within the threshold under it and those beyond.
    #[tactic(auto, using(crate::proofs::Measured::counts), unfolding(book::specs::Score::count_under, crate::specs::Judging::rule_of))]
    fn count_under(&self, h: E::Model, squares: &mut [f64; 2000]) -> Counted
        ensures within_value { result.within ≡ count_under (rule_of self.now.options) (distances_of E.family self.now.estimator self.now.options.ratio self.now.marks.now) self.now.stops.now h }
        ensures beyond_value { result.beyond ≡ beyond_of E.family self.now.estimator self.now.marks.now h }
        ensures squares_after { squares.new ≡ filled (squares_of E.family self.now.estimator self.now.options.ratio self.now.marks.now h) squares.old }
    {
        let o = self.options;
        let beyond = measure::squared_residuals(self.estimator, h, o.ratio, self.marks, squares);
        let n = estimator::mark_count::<E>(self.marks);
        let within = score::count_inliers(o.thresh, &squares[..n]);
        Counted {
            within: within as u32,
            beyond: beyond as u32,
        }
    }

    // Judges a trial but for the root mean square.
    #[tactic(auto, unfolding(book::specs::Score::judge_trial, book::specs::Score::beyond_fit, crate::specs::Judging::squares_after))]
    pub fn judge_trial(
        &self,
        trial: Option<Fitted<E::Model>>,
        squares: &mut [f64; 2000],
    ) -> Judgement<Support<E::Model>>
        ensures verdict_value { judged_as (supported (rms_under E.family self.now.estimator self.now.options self.now.marks.now)) result.verdict ≡ judge_trial (rule_of self.now.options) (distances_of E.family self.now.estimator self.now.options.ratio self.now.marks.now) self.now.stops.now (view_recorded trial) }
        ensures beyond_value { result.beyond ≡ beyond_fit (beyond_of E.family self.now.estimator self.now.marks.now) (view_recorded trial) }
        ensures squares_after { squares.new ≡ squares_after E.family self.now.estimator self.now.options self.now.marks.now self.now.stops.now (view_recorded trial) squares.old }
    {
        match trial {
            None => Judgement {
                verdict: Verdict::Empty,
                beyond: 0,
            },
            Some(t) => self.judge_fit(t.fit, t.refit, squares),
        }
    }

    // Judges a fit and, where there is one, its refit. The refit stands if options ask for it and its
    // own count reaches min_inliers, even if it is lower than the fit's. Where it doesn't, the fit is
    // measured again: the list has the squares of the model that stands. The marks beyond are those under
    // the fit, whichever stands.
    #[tactic(auto, using(crate::proofs::Measured::measured_twice), unfolding(book::specs::Score::judge_trial, book::specs::Score::judged_by, book::specs::Score::stands_of, book::specs::Score::standing, book::specs::Score::count_under, book::specs::Score::beyond_fit, crate::specs::Judging::rule_of, crate::specs::Judging::rms_under, crate::specs::Judging::squares_after))]
    fn judge_fit(
        &self,
        fit: E::Model,
        refit: Option<E::Model>,
        squares: &mut [f64; 2000],
    ) -> Judgement<Support<E::Model>>
        ensures verdict_value { judged_as (supported (rms_under E.family self.now.estimator self.now.options self.now.marks.now)) result.verdict ≡ judge_trial (rule_of self.now.options) (distances_of E.family self.now.estimator self.now.options.ratio self.now.marks.now) self.now.stops.now (refitted_by fit refit) }
        ensures beyond_value { result.beyond ≡ beyond_fit (beyond_of E.family self.now.estimator self.now.marks.now) (refitted_by fit refit) }
        ensures squares_after { squares.new ≡ squares_after E.family self.now.estimator self.now.options self.now.marks.now self.now.stops.now (refitted_by fit refit) squares.old }
    {
        let least = self.options.min_inliers;
        let first = self.count_under(fit, squares);
        let beyond = first.beyond;
        if first.within < least {
            return Judgement {
                verdict: Verdict::Few(first.within),
                beyond,
            };
        }
        let fit_stands = Judgement {
            verdict: Verdict::Scored(self.support(fit, first.within)),
            beyond,
        };
        let Some(refit) = refit else {
            return fit_stands;
        };
        if !self.options.refit {
            return fit_stands;
        }
        let again = self.count_under(refit, squares);
        if again.within < least {
            measure::squared_residuals(
                self.estimator,
                fit,
                self.options.ratio,
                self.marks,
                squares,
            );
            return fit_stands;
        }
        Judgement {
            verdict: Verdict::Scored(self.support(refit, again.within)),
            beyond,
        }
    }
}
