// What an exported call answers: a number beside the words that it lays into the list that it is lent.
ghost use Rattle.std.specs.Prelude.{◌≡◌, length};
ghost use Rattle.rule.specs.Answer.{answered};
ghost use Rattle.rule.specs.Lists.{filled};
ghost use Rattle.words.specs.Calls.{put_number, opened_number, opened_after, indexed_number};

use rule::Refusal;

// The answer of a call that has too few words to read, or too few places for those that it writes.
pub const NO_WORDS: u32 = 0xffff_ffff;

// The answer of one that lists indices, where there is no state: above all refusals.
pub const NO_STATE: u64 = 0x2_0000_0000;

// Lays words into the lent list: 0, or that it has too few places.
pub fn put(words: &[u64], entry: &mut [u64]) -> u32
    ensures value { result ≡ put_number (length words.now) entry.old }
    ensures entry_after { entry.new ≡ filled words.now entry.old }
{
    fields::lay(entry, words);
    if entry.len() < words.len() {
        NO_WORDS
    } else {
        0
    }
}

// An opening's answer as a number, with the state's words laid where it is not refused.
pub fn put_opened<const N: usize>(opened: Result<[u64; N], Refusal>, entry: &mut [u64]) -> u32
    ensures value { result ≡ opened_number N (answered opened.entry) entry.old }
    ensures entry_after { entry.new ≡ opened_after (λ words. words) (answered opened.entry) entry.old }
{
    match opened {
        Ok(words) => put(&words, entry),
        Err(_) if entry.len() < N => NO_WORDS,
        Err(refusal) => u32::from(refusal),
    }
}

// How many indices are written, or 2^32 and the number of the refusal.
pub fn indexed(answer: Result<usize, Refusal>) -> u64
    ensures { result ≡ indexed_number (answered answer) }
{
    match answer {
        Ok(n) => n as u64,
        Err(refusal) => 0x1_0000_0000 + u64::from(u32::from(refusal)),
    }
}
