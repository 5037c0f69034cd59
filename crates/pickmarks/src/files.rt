// Reading the files that a run is opened with (document 01, 'Options', 'Marks', 'Stops'). A file that
// can't be opened counts as empty. A read that fails is the end of its file.
ghost use Rattle.std.specs.Prelude.{◌≡◌, ◌≤◌, [], ◌∷◌, IfSome, length};
ghost use Rattle.rule.specs.Refusal.{SHAPE};
ghost use Rattle.rule.specs.Order.{first_failed};
ghost use Rattle.estimator.specs.Marks.{shape_tests};
ghost use Rattle.sheet.specs.Sheets.{sheet};
ghost use Rattle.records.specs.Marks.{mark_bytes, numbers_in};
ghost use Rattle.pickmarks.specs.Files.{entry_count};

use sheet::Sheet;
use std::fs;
use std::rt::Files;

// Reads a file into the front of `buffer`, as far as there is room: what was read.
pub(crate) fn read_file<'b, R: Files>(rt: &R, path: &str, buffer: &'b mut [u8]) -> &'b [u8]
    ensures { length result.now ≤ length buffer.old }
{
    match fs::open(rt, path) {
        Ok(mut file) => {
            let len = reading::read_full(&mut file, buffer);
            &buffer[..len]
        }
        Err(_) => &[],
    }
}

// What the opening is given for a file of marks that is none: one number, which it refuses with 5, after
// the tests that come before.
#[tactic(auto, unfolding(rule::specs::Order::first_failed, estimator::specs::Marks::shape_tests, estimator::specs::Marks::shape))]
fn none_given<'b>(numbers: &'b mut [f64; 8000]) -> &'b [f64]
    ensures value { first_failed (shape_tests sheet result.now) ≡ SHAPE }
    ensures upper_bound { length result.now ≤ 8000 }
{
    &numbers[..1]
}

// The numbers that the opening is given for a mark file of these bytes: it refuses them with 5 where the
// file is to be refused.
#[tactic(auto, unfolding(rule::specs::Order::first_failed, estimator::specs::Marks::shape_tests, estimator::specs::Marks::shape, records::specs::Marks::mark_bytes))]
fn numbers_given<'b>(bytes: &[u8], numbers: &'b mut [f64; 8000]) -> &'b [f64]
    ensures refusal_value { first_failed (shape_tests sheet result.now) ≡ first_failed (mark_bytes 4 bytes.now ∷ []) }
    ensures value { first_failed (mark_bytes 4 bytes.now ∷ []) ≡ 0 → result.now ≡ numbers_in 4 bytes.now }
    ensures upper_bound { length result.now ≤ 8000 }
{
    match records::read_marks::<Sheet>(bytes, numbers) {
        Ok(n) => &numbers[..n],
        Err(_) => none_given(numbers),
    }
}

// How many entries the opening is given for a stop file of `len` bytes. Where the file ends within an
// entry, or has more than any run takes, it is given none: it refuses that as 8, after the others.
fn entry_count(len: usize) -> usize
    ensures value { result ≡ entry_count len }
    ensures upper_bound { result ≤ 2001 }
{
    if len % 4 == 0 && len <= 8_004 {
        len / 4
    } else {
        0
    }
}

// Reads the bytes of marks.bin: none where it goes on behind those that there is room for. Document 01
// wants one buffer of 64,000 bytes, so the byte that is too many is read by itself.
fn read_mark_bytes<'b, R: Files>(rt: &R, bytes: &'b mut [u8; 64000]) -> Option<&'b [u8]>
    ensures { IfSome result (λ read. length read.now ≤ 64000) }
{
    match fs::open(rt, "marks.bin") {
        Ok(mut file) => {
            let len = reading::read_full(&mut file, bytes);
            if len == 64000 && reading::read_full(&mut file, &mut [0u8; 1]) != 0 {
                return None;
            }
            Some(&bytes[..len])
        }
        Err(_) => Some(&[]),
    }
}

// Reads marks.bin into the front of `numbers`: those that the opening is given.
pub(crate) fn read_marks<'b, R: Files>(rt: &R, numbers: &'b mut [f64; 8000]) -> &'b [f64]
    ensures { length result.now ≤ 8000 }
{
    // no heap
    let mut bytes = [0u8; 64000];
    match read_mark_bytes(rt, &mut bytes) {
        Some(bytes) => numbers_given(bytes, numbers),
        None => none_given(numbers),
    }
}

// Reads stops.bin into the front of `entries`: those that the opening is given.
pub(crate) fn read_stops<'b, R: Files>(rt: &R, entries: &'b mut [u32; 2001]) -> &'b [u32]
    ensures { length result.now ≤ 2001 }
{
    // no heap; one byte more than the longest has, so that a longer file has a wrong length too
    let mut bytes = [0u8; 8005];
    let bytes = read_file(rt, "stops.bin", &mut bytes);
    fields::read_words(bytes, entries);
    &entries[..entry_count(bytes.len())]
}
