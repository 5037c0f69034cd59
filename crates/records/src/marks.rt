// A mark file (document 01, 'Marks', and document 02, order 5): 8 bytes a number, and the family's numbers
// a mark.
ghost use Rattle.std.specs.Prelude.{◌≡◌, [], ◌∷◌, ◌*◌, ◌%◌, ◌≤◌, IfOk, length, take};
ghost use Rattle.rule.specs.Answer.{answered, refusal_in};
ghost use Rattle.rule.specs.Order.{first_failed};
ghost use Rattle.fields.specs.Fields.{doubles_of};
ghost use Rattle.records.specs.Marks.{mark_bytes, numbers_in, marks_answer, numbers_after};

use estimator::Estimator;
use rule::Refusal;

// The numbers of one mark, from its bytes into a list with a place for each.
#[tactic(auto, using(crate::proofs::Reading::mark_none, crate::proofs::Reading::mark_more, crate::proofs::Reading::mark_all))]
fn read_mark(bytes: &[u8], numbers: &mut [f64])
    requires { length bytes.now ≡ 8 * length numbers.old }
    ensures { numbers.new ≡ doubles_of bytes.now }
{
    // The parts, and not the double at a place: the loop then doesn't ask whether its number is there.
    let (parts, _) = bytes.as_chunks::<8>();
    for i in 0..parts.len() {
        numbers[i] = fields::double_of(u64::from_le_bytes(parts[i]));
    }
}

/// Reads the numbers of a file's marks, mark by mark, to the front of `numbers`, and answers how many they
/// are. A file that isn't a whole number of marks, or has over 64,000 bytes, is refused with 5, and nothing
/// is written.
#[tactic(auto, using(crate::proofs::Whole::reading), unfolding(rule::specs::Order::first_failed, rule::specs::Order::decided, rule::specs::Order::if_passed, crate::specs::Marks::mark_bytes))]
pub fn read_marks<E: Estimator>(bytes: &[u8], numbers: &mut [f64; 8000]) -> Result<usize, Refusal>
    ensures refusal_value { refusal_in result ≡ first_failed (mark_bytes E.family.width bytes.now ∷ []) }
    ensures value { answered result ≡ marks_answer E.family.width bytes.now }
    ensures upper_bound { IfOk result (λ n. n ≤ 8000) }
    ensures whole { IfOk result (λ n. n % E.family.width ≡ 0) }
    ensures front { IfOk result (λ n. take n numbers.new ≡ numbers_in E.family.width bytes.now) }
    ensures numbers_after { numbers.new ≡ numbers_after E.family.width bytes.now numbers.old }
{
    let (w, size) = (E::WIDTH, 8 * E::WIDTH);
    if bytes.len() % size != 0 || 64_000 < bytes.len() {
        return Err(Refusal::Shape);
    }
    for i in 0..bytes.len() / size {
        let (from, at) = (size * i, w * i);
        read_mark(&bytes[from..from + size], &mut numbers[at..at + w]);
    }
    Ok(bytes.len() / 8)
}
