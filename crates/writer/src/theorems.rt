// The theorems about the three kinds of record, each the promise of a function that does nothing: so the
// crate isn't proved without it.
ghost use Rattle.writer.specs.Format.{Faithful};
ghost use Rattle.writer.specs.Formats.{options_format, mark_format, trial_format};
ghost use Rattle.writer.specs.Readers.{OptionsReader, ShortMade, TrialReader, MarkReader};

use estimator::Estimator;

/// That what is written reads back, what is accepted is what is written for it, and what the reader would
/// refuse isn't written: of options.
#[tactic(auto, using(crate::proofs::OfOptions::options_faithful))]
pub fn options_faithful()
    ensures { Faithful options_format }
{}

/// The same of a mark.
#[tactic(auto, using(crate::proofs::OfMark::mark_faithful))]
pub fn mark_faithful()
    ensures { Faithful mark_format }
{}

/// The same of a trial.
#[tactic(auto, using(crate::proofs::OfTrial::trial_faithful))]
pub fn trial_faithful()
    ensures { Faithful trial_format }
{}

/// That the opening of a run, of any family, reads options as their format does.
#[tactic(auto, using(crate::proofs::Readers::options_reader))]
pub fn options_reader<E: Estimator>()
    ensures { OptionsReader E.family }
{}

/// That options of 32 bytes stand for the 40 that the writer makes of their numbers.
pub fn short_made()
    ensures { ShortMade }
{}

/// That a trial of a sheet is read as its format does.
#[tactic(auto, using(crate::proofs::Readers::trial_reader))]
pub fn trial_reader()
    ensures { TrialReader }
{}

/// That a file of marks is read as their format does, one record after the other.
#[tactic(auto, using(crate::proofs::Readers::mark_reader))]
pub fn mark_reader()
    ensures { MarkReader }
{}
