// The rank test of a homogeneous system (document 01, 'Rank'; math.rs).
ghost use Rattle.std.specs.Prelude.{◌≡◌};
ghost use Rattle.numbers.specs.Rank.{rank_ok};

// Whether the singular value just above the expected null space is large enough beside the first.
#[tactic(auto, unfolding(crate::specs::Rank::rank_ok))]
pub fn dlt_rank_ok(
    singular_values: &[f64],
    cols: usize,
    expected_null_dim: usize,
    rel_tol: f64,
) -> bool
    ensures { result ≡ rank_ok singular_values.now cols expected_null_dim rel_tol }
{
    let Some(first) = singular_values.first() else {
        return false;
    };
    if *first <= f64::EPSILON || cols <= expected_null_dim {
        return false;
    }
    let Some(boundary) = singular_values.get(cols - expected_null_dim - 1) else {
        return false;
    };
    *boundary / *first >= rel_tol
}
