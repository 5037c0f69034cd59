// The square root of a double (document 01, 'Root'), correctly rounded, without the machine's own:
// 54 binary digits of a whole root, one by one, a remainder carried from digit to digit and nothing
// squared (document 02, order 4).
//
// `sqrt` is for callers in other crates, total as Rust's is, and `sqrt_two` for those that have two
// numbers. `root` is the entry that refuses. `after_digits`, the loop, is public for what it promises.
#![tactic(auto)]

ghost use Rattle.std.specs.Prelude.{◌≡◌, T, IfOk, ◌+◌, ◌-◌, ◌*◌, ◌/◌, ◌≤◌, ◌<◌, ◌^◌};
ghost use Rattle.std.specs.Float.{binary64};
ghost use Rattle.std.specs.Float.Ieee.{to_bits};
ghost use Rattle.std.specs.Float.Ieee.Positive.{positive};
ghost use Rattle.rule.specs.Answer.{answered};
ghost use Rattle.root.specs.Digits.{AfterEachDigit, Chosen, Ready, NextDigit, Holds, AllShort, AllHold, AllExtracted};
ghost use Rattle.root.specs.Root.{significand, exponent, shift_of, IsScaled, root_of, root_answer, Correct, RootMonotone};

use rule::Refusal;

/// What the digit loop carries of a number, in place: in units of 2 ^ (55 - i) after i digits. With each
/// digit what is left doubles and the unit halves, so that no digit is ever brought down.
#[derive(Clone, Copy)]
pub struct Digits {
    /// The root so far, times the unit.
    pub root: u64,
    /// What is left of the number: the remainder times the unit, and the digits still to come behind it,
    /// which are less than a unit.
    pub left: u64,
}

// A finite positive double that is scaled for its root: its significand n, in 53 or 54 digits, and the
// root's exponent in its place.
#[derive(Clone, Copy)]
struct Scaled {
    a: f64,
    n: u64,
    place: u64,
    ghost plain: { T (positive a) },
    ghost short: { n < 2 ^ 54 },
    ghost finite: { (0 < to_bits binary64 a) × (to_bits binary64 a < 2047 * 2 ^ 52) },
    ghost scaled: { IsScaled (to_bits binary64 a) n place },
}

// 2 ^ 52, the weight of a double's leading digit.
const HIDDEN: u64 = 1 << 52;

// 2 ^ 55, the unit before the first of 54 digits. After the last it is 2.
const UNIT: u64 = 1 << 55;

// A number by the digit, which is 1 where the trial is not above what is left. A function of its own,
// so that it compiles without a branch. (By masks, the way that has none whatever the compiler does, a
// root takes 195 nanoseconds for 71.)
fn chosen(left: u64, trial: u64, none: u64, one: u64) -> u64
    ensures { Chosen left trial none one result }
{
    if left < trial { none } else { one }
}

// One digit of the root. Where it is 1, twice the trial is taken off what is left, doubled: that is
// the old root and the new one together. (Written as twice the trial, it compiles to a jump.)
#[tactic(auto, using(crate::proofs::Whole::chosen_cut, crate::proofs::Whole::digit_step))]
fn next_digit(d: Digits, unit: u64) -> Digits
    requires { Ready d.root d.left unit }
    ensures { NextDigit d.root d.left unit result.root result.left (unit / 2) }
{
    let half = unit / 2;
    let grown = d.root + half;
    let trial = d.root + half / 2;
    Digits {
        root: chosen(d.left, trial, d.root, grown),
        left: d.left * 2 - chosen(d.left, trial, 0, d.root + grown),
    }
}

// A digit more of each root, where `count` of its 54 are found. Each is the root of n * 2 ^ 54, for an n
// of a list: the digits of two roots side by side take less time than one root's after the other's. (The
// numbers and the count are there for the contract, and compile to nothing. A struct of all four would
// have to show, wherever it is made, that arrays of this length fit into memory. By index: after `iter_mut` a
// proof knows no element, and in `map` or `array::from_fn` each closure needs clauses of its own.)
fn next_digits<const N: usize>(
    n: [u64; N],
    count: u32,
    digits: [Digits; N],
    unit: u64,
) -> [Digits; N]
    requires { AllShort n × (count < 54) × AllHold n count digits unit }
    ensures { AllHold n.entry (count + 1) result (unit / 2) }
{
    let mut s = digits;
    for k in 0..N {
        s[k] = next_digit(s[k], unit);
    }
    s
}

// Six digits more, which are a turn of the digit loop. (With two, the compiler's own choice, a root takes
// up to a quarter more time where the loop's jump comes to lie across 32 bytes of memory.)
fn six_digits<const N: usize>(
    n: [u64; N],
    count: u32,
    digits: [Digits; N],
    unit: u64,
) -> [Digits; N]
    requires { AllShort n × (count + 6 ≤ 54) × AllHold n count digits unit }
    ensures { AllHold n.entry (count + 6) result (unit / 64) }
{
    let mut s = digits;
    let mut part = unit;
    for more in 0..6 {
        s = next_digits(n, count + more, s, part);
        part /= 2;
    }
    s
}

/// The first `count` of the 54 digits of each root, in units of 2 ^ (55 - count). Each root is that of
/// n * 2 ^ 54, for an n of the list, which has 54 digits at most.
pub fn after_digits<const N: usize>(n: [u64; N], count: u32) -> [Digits; N]
    requires { AllShort n × (count ≤ 54) }
    ensures held { AllHold n.entry count result (2 ^ (55 - count)) }
    ensures extracted { AllExtracted n.entry count result (2 ^ (55 - count)) }
{
    let mut s = [Digits { root: 0, left: 0 }; N];
    for k in 0..N {
        s[k] = Digits {
            root: 0,
            left: n[k] * 2,
        };
    }
    let mut unit = UNIT;
    for turn in 0..count / 6 {
        s = six_digits(n, 6 * turn, s, unit);
        unit /= 64;
    }
    for more in count / 6 * 6..count {
        s = next_digits(n, more, s, unit);
        unit /= 2;
    }
    s
}

#[tactic(auto, unfolding(crate::specs::Root::significand))]
fn significand_of(b: u64) -> u64
    ensures { result ≡ significand b }
{
    if b < HIDDEN { b } else { HIDDEN + b % HIDDEN }
}

#[tactic(auto, unfolding(crate::specs::Root::exponent))]
fn exponent_of(b: u64) -> u64
    ensures { result ≡ exponent b }
{
    (b / HIDDEN).saturating_sub(1)
}

// By how many digits a significand m goes up, so that it has 53 or 54 and an even exponent. (Most have
// no zeros to count: without the first test a root takes 2 nanoseconds more.)
#[tactic(auto, using(crate::proofs::Patterns::zeros_bounds, crate::proofs::Patterns::no_zeros), unfolding(crate::specs::Root::shift_of))]
fn shift_of(m: u64, e: u64) -> u64
    requires { (0 < m) × ((m < 2 ^ 53) × (e < 2 ^ 11)) }
    ensures { result ≡ shift_of m e }
{
    if HIDDEN <= m {
        return e % 2;
    }
    let z = u64::from(m.leading_zeros() - 11);
    z + (e + z) % 2
}

fn scale(a: f64) -> Scaled
    requires { T (positive a) }
    ensures { result.a ≡ a }
{
    let b = a.to_bits();
    let m = significand_of(b);
    let e = exponent_of(b);
    let s = shift_of(m, e);
    Scaled {
        a,
        n: m << s,
        place: (e + 1022 - s) / 2 * HIDDEN,
    }
}

// The root, from all 54 digits in units of 2: half of that whole root, which goes up where it is odd.
// (With an operation more, the compiler takes two roots by vector instructions, in a third more time.)
fn rounded(s: Scaled, d: Digits) -> f64
    requires { Holds (s.n * 2 ^ 54) 54 d.root d.left 2 }
    ensures { result ≡ root_of s.a }
{
    f64::from_bits(s.place + (d.root + 2) / 4)
}

// Finite and positive.
#[tactic(auto, using(crate::proofs::Doubles::positive_of, crate::proofs::Doubles::positive_not))]
fn is_plain(a: f64) -> bool
    ensures { result ≡ positive a }
{
    0.0 < a && a < f64::INFINITY
}

/// The root of `a`; a NaN where there is none. Total, for callers in other crates.
#[tactic(auto, using(crate::proofs::Doubles::own_root, crate::proofs::Doubles::no_root, crate::proofs::Whole::short_none, crate::proofs::Whole::short_more))]
pub fn sqrt(a: f64) -> f64
    ensures value { result ≡ root_of a }
    ensures correct { T (positive a) → Correct a result }
{
    if is_plain(a) {
        let s = scale(a);
        let [d] = after_digits([s.n], 54);
        return rounded(s, d);
    }
    if 0.0 <= a { a } else { f64::NAN }
}

/// The roots of two numbers, side by side, which takes two thirds of the time of one after the other.
/// Total, as `sqrt` is.
// (One function for any number of them is no plainer: it would ask whether all are
// plain, and else take each by itself, as this one does.)
#[tactic(auto, using(crate::proofs::Whole::short_none, crate::proofs::Whole::short_more))]
pub fn sqrt_two(a: f64, b: f64) -> (f64, f64)
    ensures { (result.0 ≡ root_of a) × (result.1 ≡ root_of b) }
{
    if is_plain(a) && is_plain(b) {
        let s = scale(a);
        let t = scale(b);
        let [d, e] = after_digits([s.n, t.n], 54);
        return (rounded(s, d), rounded(t, e));
    }
    (sqrt(a), sqrt(b))
}

/// The root of `a`; refused with 15 where `a` is a NaN or negative.
#[tactic(auto, using(crate::proofs::Doubles::root_given, crate::proofs::Doubles::turned_down))]
pub fn root(a: f64) -> Result<f64, Refusal>
    ensures answer { answered result ≡ root_answer a }
    ensures correct { T (positive a) → IfOk result (λ y. Correct a y) }
{
    if a >= 0.0 {
        Ok(sqrt(a))
    } else {
        Err(Refusal::Number)
    }
}

/// That the root is monotone: a number that is not smaller has a root that is not smaller.
#[tactic(auto, using(crate::proofs::Monotone::root_monotone))]
pub fn root_monotone()
    ensures { RootMonotone }
{}

/// That after each digit the remainder is the part taken so far less the square of the root so far, and
/// at most twice that root.
pub fn after_each_digit()
    ensures { AfterEachDigit }
{}
