// The starred cases of document 01: `specs/Starred.antt` states them, of the definitions, and
// `proofs/Proved.antt` proves them. There is no other code.
#![tactic(auto)]

ghost use Rattle.starred.specs.Starred.{Starred};

/// The starred cases, each of them so.
#[tactic(auto, using(crate::proofs::Proved::starred))]
pub fn starred_cases()
    ensures { Starred }
{}
