// The mean of roots (document 01, 'Normalising', and document 02, order 5), of numbers that are worked
// out place by place: the squares of the points' distances from their centre.
ghost use Rattle.std.specs.Prelude.{◌≡◌, ℕ, Float};
ghost use Rattle.root.specs.Root.{root_of};
ghost use Rattle.linalg.specs.Mean.{mean_of};

// Squares that are worked out place by place.
pub trait Squares: Copy {
    ghost count: { Self → ℕ };

    ghost square: { Self → ℕ → Float };

    fn len(self) -> usize
        ensures { result ≡ count self };

    fn at(self, i: usize) -> f64
        ensures { result ≡ square self i };
}

// They go in twos, and the last of an odd number by itself: two roots together take less time than one
// after the other (`sqrt_two`).
#[tactic(auto, using(crate::proofs::Sums::two_none, crate::proofs::Sums::two_more, crate::proofs::Sums::mean_even, crate::proofs::Sums::mean_odd))]
pub fn mean_root<S: Squares>(squares: S) -> f64
    ensures { result ≡ mean_of root_of (S.square squares) (S.count squares) }
{
    let n = squares.len();
    let count = std::num::nearest_usize_to_f64(n);
    let mut sum = 0.0;
    for i in 0..n / 2 {
        let (first, second) = root::sqrt_two(squares.at(2 * i), squares.at(2 * i + 1));
        sum = sum + first + second;
    }
    if n % 2 == 1 {
        let last = root::sqrt(squares.at(n - 1));
        return (sum + last) / count;
    }
    sum / count
}
