// The picking rule of document 01 ('Trials', 'Picking rule'), for any kind of model and of distance:
// `specs/` has the scoring of a trial, the book and what demand 3 says of it. Each function stands for a
// theorem and does nothing; there is no other code.
#![tactic(auto)]

ghost use Rattle.book.specs.Score.{RmsNotNan};
ghost use Rattle.book.specs.Beyond.{WithinAndBeyond};
ghost use Rattle.book.specs.Rule.{PickingRule, RunExact};

/// That no root mean square is a NaN.
#[tactic(auto, using(crate::proofs::Clear::rms_not_nan))]
pub fn rms_not_nan()
    ensures { RmsNotNan }
{}

/// That the marks beyond and those within the threshold are at most all marks together.
#[tactic(auto, using(crate::proofs::Beyond::within_and_beyond))]
pub fn within_and_beyond<A, M>()
    ensures { WithinAndBeyond A M }
{}

/// The picking rule, of the book alone, after any list of calls.
pub fn picking_rule<C, M>()
    ensures { PickingRule C M }
{}

/// That the whole run over a list reads exactly as far as it should.
#[tactic(auto, using(crate::proofs::Picked::run_exact))]
pub fn run_exact<M>()
    ensures { RunExact M }
{}
