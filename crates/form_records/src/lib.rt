// The camera's record and the opening of a form's run from records (document 02, order 5).
#![tactic(auto)]

ghost use Rattle.std.specs.Prelude.{◌≡◌};
ghost use Rattle.rule.specs.Answer.{answered, told};
ghost use Rattle.pick.specs.Run.{view_state};
ghost use Rattle.form_records.specs.Camera.{camera_answer, records_answer};

use form::{Camera, Model};
use pick::State;
use rule::Refusal;
use std::array;

// The camera of a record of 32 bytes; refused with 1 where it has another length. The numbers are not
// tested.
#[tactic(auto, unfolding(rule::specs::Order::first_failed, rule::specs::Order::decided, estimator::specs::Numbers::numbers_at, crate::specs::Camera::camera_record, crate::specs::Camera::camera_in, crate::specs::Camera::camera_answer))]
pub fn read_camera(bytes: &[u8]) -> Result<Camera, Refusal>
    ensures { answered result ≡ camera_answer bytes.now }
{
    if bytes.len() != 32 {
        return Err(Refusal::Record);
    }
    let numbers: [f64; 4] = array::from_fn(|k| fields::double_at(bytes, k));
    Ok(Camera::from(numbers))
}

// Opens a form's run by a record of options and one of the camera; refused with 1 by either, and then as
// by the types.
#[tactic(auto, unfolding(rule::specs::Order::first_failed, rule::specs::Order::decided, records::specs::Options::options_answer, records::specs::Options::options_record, pick::specs::Opening::opening_answer, crate::specs::Camera::camera_record, crate::specs::Camera::camera_answer, crate::specs::Camera::records_tests, crate::specs::Camera::records_answer))]
pub fn open_records(
    options: &[u8],
    camera: &[u8],
    marks: &[f64],
    stops: &[u32],
) -> Result<State<Camera, Model>, Refusal>
    ensures { told view_state result ≡ records_answer options.now camera.now marks.now stops.now }
{
    let o = records::read_options(options)?;
    let c = read_camera(camera)?;
    pick::open(c, o, marks, stops)
}
