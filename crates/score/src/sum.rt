// A sum of the squares of roots within a threshold. The roots are taken by twos, in two thirds of the time
// that they take one by one.
ghost use Rattle.std.specs.Prelude.{◌≡◌};
ghost use Rattle.root.specs.Root.{root_of};
ghost use Rattle.score.specs.Sum.{within_added, with_waiting};

use crate::limits::Limits;

// What is added up, and a square whose root is still to be taken.
#[derive(Clone, Copy)]
pub struct Sum {
    pub total: f64,
    pub waiting: Option<f64>,
}

// The sum, with the square of a root where that is within the threshold.
#[tactic(auto, unfolding(crate::specs::Sum::within_added, book::specs::Score::square))]
fn add_root(thresh: f64, total: f64, root: f64) -> f64
    ensures { result ≡ within_added thresh total root }
{
    if root <= thresh {
        total + root * root
    } else {
        total
    }
}

impl Sum {
    pub const NONE: Sum = Sum {
        total: 0.0,
        waiting: None,
    };

    // The square of the root of `square` is added, or waits to be.
    #[tactic(auto, unfolding(crate::specs::Sum::within_added))]
    pub fn add(self, limits: Limits, square: f64) -> Sum
        ensures { with_waiting limits.thresh result.total result.waiting ≡ within_added limits.thresh (with_waiting limits.thresh self.total self.waiting) (root_of square) }
    {
        if !limits.is_possible(square) {
            return self;
        }
        match self.waiting {
            Some(first) => {
                let (d, e) = root::sqrt_two(first, square);
                Sum {
                    total: add_root(limits.thresh, add_root(limits.thresh, self.total, d), e),
                    waiting: None,
                }
            }
            None => Sum {
                total: self.total,
                waiting: Some(square),
            },
        }
    }

    // The sum, with the one that waits.
    pub fn all(self, thresh: f64) -> f64
        ensures { result ≡ with_waiting thresh self.total self.waiting }
    {
        match self.waiting {
            Some(square) => add_root(thresh, self.total, root::sqrt(square)),
            None => self.total,
        }
    }
}
