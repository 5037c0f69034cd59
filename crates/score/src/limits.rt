// The squared distances that a threshold settles without a root.
ghost use Rattle.std.specs.Prelude.{◌≡◌};
ghost use Rattle.std.specs.Float.Ieee.{le};
ghost use Rattle.root.specs.Root.{root_of};
ghost use Rattle.score.specs.Limits.{Low, High, settled, surely, possibly, addend, Under};

// A threshold, and what it settles: squares up to `low` are within it, those from `high` on are not.
#[derive(Clone, Copy)]
pub struct Limits {
    pub thresh: f64,
    pub low: f64,
    pub high: f64,
    ghost low_settles: { Low thresh low },
    ghost high_settles: { High thresh high },
}

// A limit where it settles anything. Else a NaN: it compares with nothing, where an `Option` would add a
// case to each of the three methods that compare with it.
#[tactic(auto, unfolding(crate::specs::Limits::settled))]
fn settled(thresh: f64, limit: f64, settles: bool) -> f64
    ensures { result ≡ settled thresh limit settles }
{
    if 0.0 < thresh && 0.0 < limit && settles {
        limit
    } else {
        f64::NAN
    }
}

impl Limits {
    // The lower limit alone, just below the threshold's square, by one root.
    pub fn lower_of(thresh: f64) -> Self
        ensures { result.thresh ≡ thresh }
    {
        let low = thresh * thresh * 0.9999999999999991;
        Limits {
            thresh,
            low: settled(thresh, low, root::sqrt(low) <= thresh),
            high: f64::NAN,
        }
    }

    // The upper one too, just above that square. Two roots for a walk over the squares spare one for
    // each that isn't close to the threshold's.
    pub fn of(thresh: f64) -> Self
        ensures { result.thresh ≡ thresh }
    {
        let low = thresh * thresh * 0.9999999999999991;
        let high = thresh * thresh * 1.0000000000000009;
        let (low_root, high_root) = root::sqrt_two(low, high);
        Limits {
            thresh,
            low: settled(thresh, low, low_root <= thresh),
            high: settled(thresh, high, thresh < high_root),
        }
    }

    // Whether a square is within the threshold without a root.
    #[tactic(auto, unfolding(crate::specs::Limits::surely))]
    pub fn is_sure(self, square: f64) -> bool
        ensures { result ≡ surely self.low square }
    {
        0.0 <= square && square <= self.low
    }

    // Whether a square may be within it: any may where the limit is a NaN.
    #[tactic(auto, unfolding(crate::specs::Limits::possibly))]
    pub fn is_possible(self, square: f64) -> bool
        ensures { result ≡ possibly self.high square }
    {
        !(self.high <= square)
    }

    // Whether the root of a square is at most the threshold.
    pub fn is_close(self, square: f64) -> bool
        ensures { result ≡ le (root_of square) self.thresh }
    {
        self.is_sure(square) || (self.is_possible(square) && root::sqrt(square) <= self.thresh)
    }

    // No more than what a square adds to the sum, and hardly less: the square of a double's root, rounded
    // twice, is not below the double less its 2^52nd part. Both tests are made, so that there is no jump.
    #[tactic(auto, using(crate::proofs::Least::adding))]
    pub fn least_addend(self, square: f64) -> f64
        ensures { Under result (addend self.thresh (root_of square)) }
    {
        if (0.0 < square) & (square <= self.low) {
            square * 0.9999999999999998
        } else {
            0.0
        }
    }
}
