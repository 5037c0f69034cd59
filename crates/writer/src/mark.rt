// A mark's record: sheet x, y and pixel u, v.
ghost use Rattle.std.specs.Prelude.{◌≡◌};
ghost use Rattle.rule.specs.Answer.{refusal_in};
ghost use Rattle.writer.specs.Format.{writer_answer, written};
ghost use Rattle.writer.specs.Formats.{mark_format};

use rule::Refusal;

// Writes a mark's 32 bytes to the front of `out`; refused with 6 and 9 in that order and nothing written.
#[tactic(auto, using(crate::proofs::OfMark::mark_answer, crate::proofs::OfMark::packs), unfolding(crate::specs::Format::written, rule::specs::Order::first_failed, rule::specs::Order::if_passed, estimator::specs::Marks::point, sheet::specs::Marks::mark_numbers))]
pub fn write_mark(x: f64, y: f64, u: f64, v: f64, out: &mut [u8]) -> Result<(), Refusal>
    ensures value { refusal_in result ≡ writer_answer mark_format (record { x = x; y = y; u = u; v = v }) out.old }
    ensures out_after { out.new ≡ written mark_format (record { x = x; y = y; u = u; v = v }) out.old }
{
    let numbers = [x, y, u, v];
    if !estimator::all_in_range(&numbers) {
        return Err(Refusal::Point);
    }
    if out.len() < 32 {
        return Err(Refusal::Room);
    }
    fields::write_all(&numbers, out);
    Ok(())
}
