// A sheet's state read from its 25 words.
ghost use Rattle.std.specs.Prelude.{◌≡◌};
ghost use Rattle.sheet.specs.Distance.{model_of};
ghost use Rattle.pick.specs.Run.{view_state};
ghost use Rattle.words.specs.Words.{numbers_from};
ghost use Rattle.probe_pick.specs.Words.{state_in};

use pick::State;
use sheet::{Model, Sheet};
use std::array;

fn model_in(words: &[u64]) -> Model
    ensures { result ≡ model_of (numbers_from 15 9 words.now) }
{
    Model::from(array::from_fn(|i| words::number_at(words, 15 + i)))
}

pub(crate) fn state_in(words: &[u64]) -> State<Sheet, Model>
    ensures { view_state result ≡ state_in words.now }
{
    words::state_in(words, Sheet, model_in(words))
}
