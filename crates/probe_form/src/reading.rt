// A form's state read from its 32 words.
ghost use Rattle.std.specs.Prelude.{◌≡◌};
ghost use Rattle.form.specs.Distance.{model_of, camera_of};
ghost use Rattle.pick.specs.Run.{view_state};
ghost use Rattle.words.specs.Words.{numbers_from};
ghost use Rattle.probe_form.specs.Words.{state_in};

use form::{Camera, Model};
use pick::State;
use std::array;

fn model_in(words: &[u64]) -> Model
    ensures { result ≡ model_of (numbers_from 15 12 words.now) }
{
    Model::from(array::from_fn(|i| words::number_at(words, 15 + i)))
}

fn camera_in(words: &[u64]) -> Camera
    ensures { result ≡ camera_of (numbers_from 28 4 words.now) }
{
    Camera::from(array::from_fn(|i| words::number_at(words, 28 + i)))
}

pub(crate) fn state_in(words: &[u64]) -> State<Camera, Model>
    ensures { view_state result ≡ state_in words.now }
{
    words::state_in(words, camera_in(words), model_in(words))
}
