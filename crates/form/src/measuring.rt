// Standing forms as a family, and the distance of a mark under a candidate and a camera (document 02,
// order 5) by the row ratio (order 3), or that the mark is beyond (order 2).
ghost use Rattle.std.specs.Prelude.{◌≡◌, refl};
ghost use Rattle.rule.specs.Answer.{told};
ghost use Rattle.estimator.specs.Entry.{measured, distance_answer};
ghost use Rattle.form.specs.Forms.{form};
ghost use Rattle.form.specs.Owed.{wide, narrow, small, counts, placed, modelled, numbered};

use crate::marks::{Mark, mark_at, pixel_of, point_of};
use crate::model::{Camera, Model, project_point, squared_residual, transform_point};
use estimator::Estimator;
use rule::Refusal;
use std::array;

impl Estimator for Camera {
    type Datum = Mark;

    type Model = Model;

    const WIDTH: usize = 5;

    ghost WIDTH = { 5 };

    const MIN_SAMPLES: usize = 6;

    ghost MIN_SAMPLES = { 6 };

    const SIZE: usize = 12;

    ghost SIZE = { 12 };

    ghost family = { form };

    #[tactic(auto, unfolding(estimator::specs::Family::mark_at, crate::specs::Marks::mark_at))]
    fn mark_at(marks: &[f64], i: usize) -> Mark {
        mark_at(marks, i)
    }

    // It is worked out either way, so that the compiler may make it a choice of two numbers and no jump.
    #[tactic(auto, unfolding(estimator::specs::Family::squared_distance_of, crate::specs::Distance::beyond_under, crate::specs::Distance::square_under))]
    fn squared_distance(self, h: Model, m: Mark, ratio: f64) -> Option<f64> {
        let p = transform_point(h, point_of(m));
        let square = squared_residual(project_point(self, p), pixel_of(m), ratio);
        (p.z > 0.0).then_some(square)
    }

    #[tactic(auto, unfolding(estimator::specs::Numbers::model_read, estimator::specs::Numbers::numbers_at))]
    fn read_model(mark: bool, bytes: &[u8]) -> Option<Model> {
        let numbers: [f64; 12] = array::from_fn(|k| fields::double_at(bytes, k));
        estimator::numbers_formed(mark, &numbers).then_some(Model::from(numbers))
    }

    // Every number in range, else 17.
    #[tactic(auto, unfolding(rule::specs::Order::first_failed, crate::specs::Distance::camera))]
    fn validate(self) -> Result<(), Refusal> {
        if !estimator::all_in_range(&self.numbers()) {
            return Err(Refusal::Camera);
        }
        Ok(())
    }

    fn model_finite(h: Model) -> bool {
        numbers::ensure_finite(&h.numbers())
    }

    fn mark_in_range(m: Mark) -> bool {
        estimator::all_in_range(&m.numbers())
    }

    ghost width_is = { refl };

    ghost least_is = { refl };

    ghost size_is = { refl };

    ghost wide = { wide };

    ghost narrow = { narrow };

    ghost small = { small };

    ghost counts = { counts };

    ghost placed = { placed };

    ghost modelled = { modelled };

    ghost numbered = { numbered };
}

// The distance of a mark under a candidate and a camera by a row ratio, none where the mark is beyond;
// refused with 1 where a number of the candidate is not finite, then with 6 where one of the mark is out
// of range, then with 16 where the ratio is not from 0.01 to 100, then with 17 where a number of the
// camera is out of range.
pub fn distance(camera: Camera, h: Model, m: Mark, ratio: f64) -> Result<Option<f64>, Refusal>
    ensures { told measured result ≡ distance_answer form camera ratio h m }
{
    estimator::distance(camera, h, m, ratio)
}
