// Reads of files whose parts have a known size: a buffer filled from a reader, as far as its bytes
// go. For the programs, which read records and whole files.
#![tactic(auto)]

ghost use Rattle.std.specs.Prelude.{◌≤◌, length, take};
ghost use Rattle.std.specs.Io.KnownBytes.{Consumes};

use std::io::Read;

// Reads until the buffer is full or the reader at its end, and answers how many bytes at the buffer's
// front are of the reader, as std's `read` does. A read that fails is the end.
#[tactic(auto, using(crate::proofs::Parts::read_more))]
pub fn read_full<F: Read>(file: &mut F, buffer: &mut [u8]) -> usize
    ensures bound { result ≤ length buffer.new }
    ensures bytes { Consumes (F.remaining file.old) (F.remaining file.new) (take result buffer.new) }
{
    let mut at = 0;
    // A read gives as many bytes as it likes, so there is no range to go through.
    while at < buffer.len() {
        match file.read(&mut buffer[at..]) {
            Ok(0) | Err(_) => break,
            Ok(n) => at += n,
        }
    }
    at
}
