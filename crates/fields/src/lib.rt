// Fields of files and records (document 01: 'Numbers in files are little-endian'): read from and
// written to lists of bytes, each at its own multiple of its width.
#![tactic(auto)]

ghost use Rattle.std.specs.Prelude.{◌≡◌, ◌<◌, ℕ, List, length};
ghost use Rattle.std.proofs.Common.{zero-lt-suc};
ghost use Rattle.std.specs.Float.{binary64};
ghost use Rattle.std.specs.Float.Ieee.{of_bits, to_bits};
ghost use Rattle.rule.specs.Lists.{filled, for_each};
ghost use Rattle.fields.specs.Fields.{byte_at, word_at, long_at, double_at, zero_bytes, words_of, bytes_of, double_bytes};
ghost use Rattle.fields.specs.Wide.{bytes_wide, double_wide};

// The byte at place `i`; 0 where there is none.
#[tactic(auto, unfolding(crate::specs::Fields::byte_at))]
pub fn byte_at(bytes: &[u8], i: usize) -> u8
    ensures { result ≡ byte_at bytes.now i }
{
    bytes.get(i).copied().unwrap_or(0)
}

// The four-byte field at place `i`; 0 where there is none.
#[tactic(auto, using(crate::proofs::Reading::word_read, crate::proofs::Reading::no_word))]
pub fn word_at(bytes: &[u8], i: usize) -> u32
    ensures { result ≡ word_at bytes.now i }
{
    let (parts, _) = bytes.as_chunks::<4>();
    if i < parts.len() {
        u32::from_le_bytes(parts[i])
    } else {
        0
    }
}

// The eight-byte field at place `i`; 0 where there is none. This and `word_at` stay two functions: they
// share one test, and one for both would have to take the size and what reads it.
#[tactic(auto, using(crate::proofs::Reading::long_read, crate::proofs::Reading::no_long))]
pub fn long_at(bytes: &[u8], i: usize) -> u64
    ensures { result ≡ long_at bytes.now i }
{
    let (parts, _) = bytes.as_chunks::<8>();
    if i < parts.len() {
        u64::from_le_bytes(parts[i])
    } else {
        0
    }
}

// The double of a bit pattern; all NaNs are one.
#[tactic(auto, using(rule::proofs::Nan::nan_bits_lem, rule::proofs::Nan::no_nan_bits))]
pub fn double_of(bits: u64) -> f64
    ensures { result ≡ of_bits binary64 bits }
{
    // std's `from_bits` takes no NaN.
    if bits % 0x8000_0000_0000_0000 > 0x7ff0_0000_0000_0000 {
        return f64::NAN;
    }
    f64::from_bits(bits)
}

// The bit pattern of a double; a NaN's is the quiet one without a sign.
#[tactic(auto, using(crate::proofs::Reading::nan_pattern))]
pub fn bits_of(x: f64) -> u64
    ensures { result ≡ to_bits binary64 x }
{
    // std's `to_bits` takes no NaN.
    if x.is_nan() {
        return 0x7ff8_0000_0000_0000;
    }
    x.to_bits()
}

// The double at place `i`, of eight bytes each; that of bits 0 where there is none.
#[tactic(auto, unfolding(crate::specs::Fields::double_at))]
pub fn double_at(bytes: &[u8], i: usize) -> f64
    ensures { result ≡ double_at bytes.now i }
{
    double_of(long_at(bytes, i))
}

// Whether every byte from `from` up to, not including, `to` is 0, as far as there are such.
#[tactic(auto, unfolding(crate::specs::Fields::zero_bytes))]
pub fn zero_bytes(bytes: &[u8], from: usize, to: usize) -> bool
    ensures { result ≡ zero_bytes from to bytes.now }
{
    bytes.iter().take(to).skip(from).all(|b| *b == 0)
}

// Reads all four-byte fields into `words`, from its front, if it has room for them.
#[tactic(auto, using(crate::proofs::Reading::words_no_room, crate::proofs::Reading::words_none, crate::proofs::Reading::words_more, crate::proofs::Reading::words_all))]
pub fn read_words(bytes: &[u8], words: &mut [u32])
    ensures { words.new ≡ filled (words_of bytes.now) words.old }
{
    let n = bytes.len() / 4;
    if words.len() < n {
        return;
    }
    for i in 0..n {
        words[i] = word_at(bytes, i);
    }
}

// Lays a list over the front of `part`, if it has room for it.
#[tactic(auto, using(rule::proofs::Lists::filled_not, crate::proofs::Writing::front_filled))]
pub fn lay<T: Copy>(part: &mut [T], items: &[T])
    ensures { part.new ≡ filled items.now part.old }
{
    let n = items.len();
    if n <= part.len() {
        part[..n].copy_from_slice(items);
    }
}

// A number that files hold: by how many bytes, and by which.
pub trait Field: Copy {
    const WIDTH: usize;

    ghost WIDTH: { ℕ };

    ghost bytes: { Self → List ℕ };

    // Writes the bytes to the front of `part`, if it has room for them.
    fn put_to(self, part: &mut [u8])
        ensures { part.new ≡ filled (bytes self) part.old };

    ghost some: { 0 < WIDTH };

    ghost wide: { (x : Self) → length (bytes x) ≡ WIDTH };
}

// This and the impl for u64 stay two: each names its own width and its own method of std.
impl Field for u32 {
    const WIDTH: usize = 4;

    ghost WIDTH = { 4 };

    ghost bytes = { bytes_of 4 };

    #[tactic(auto, using(crate::proofs::Writing::low_put))]
    fn put_to(self, part: &mut [u8]) {
        lay(part, &u32::to_le_bytes(self));
    }

    ghost some = { zero-lt-suc 3 };

    ghost wide = { bytes_wide 4 };
}

impl Field for u64 {
    const WIDTH: usize = 8;

    ghost WIDTH = { 8 };

    ghost bytes = { bytes_of 8 };

    #[tactic(auto, using(crate::proofs::Writing::low_put))]
    fn put_to(self, part: &mut [u8]) {
        lay(part, &u64::to_le_bytes(self));
    }

    ghost some = { zero-lt-suc 7 };

    ghost wide = { bytes_wide 8 };
}

impl Field for f64 {
    const WIDTH: usize = 8;

    ghost WIDTH = { 8 };

    ghost bytes = { double_bytes };

    #[tactic(auto, unfolding(crate::specs::Fields::double_bytes))]
    fn put_to(self, part: &mut [u8]) {
        bits_of(self).put_to(part);
    }

    ghost some = { zero-lt-suc 7 };

    ghost wide = { double_wide };
}

// Writes each number's bytes into `bytes`, from its front, if it has room for them.
#[tactic(auto, using(crate::proofs::Writing::put_none, crate::proofs::Writing::put_no_room, crate::proofs::Writing::put_more, crate::proofs::Writing::put_all))]
pub fn write_all<T: Field>(items: &[T], bytes: &mut [u8])
    ensures { bytes.new ≡ filled (for_each T.bytes items.now) bytes.old }
{
    let w = T::WIDTH;
    if bytes.len() / w < items.len() {
        return;
    }
    for i in 0..items.len() {
        let a = w * i;
        items[i].put_to(&mut bytes[a..a + w]);
    }
}
