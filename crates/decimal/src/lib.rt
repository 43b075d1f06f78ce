// A token read as a number: a decimal, rounded once to the nearest f32, or no number.
#![tactic(auto)]

ghost use Rattle.std.specs.Prelude.{◌≡◌, cond, ◌+◌, ◌^◌, ◌<◌, ◌≤◌, length};
ghost use Rattle.std.specs.Float.Ieee as Ieee;
ghost use Rattle.std.specs.Float.{binary32};
ghost use Rattle.decimal.specs.Decimal.{most_digits, read_of, unsigned_of, number_of};
ghost use Rattle.decimal.specs.inner.Steps.{RunsTo};

pub mod long;
mod near;
mod quotient;
mod shift;
mod tally;
mod three_words;
mod wide;

pub use crate::long::read_long;
use crate::quotient::magnitude;

#[derive(Clone, Copy)]
pub enum Token {
    Number(f32),
    NoNumber,
}

const MOST_DIGITS: usize = 18;

// A token: an optional sign, then digits with at most one point.
pub fn read(s: &[u8]) -> Token
    ensures { result ≡ read_of s.now }
{
    if s.len() == 0 {
        return Token::NoNumber;
    }
    let b = s[0];
    if b == b'-' {
        return unsigned(&s[1..], true);
    }
    if b == b'+' {
        return unsigned(&s[1..], false);
    }
    unsigned(s, false)
}

// A token after its sign. One with more bytes than the most digits and a point is refused at once,
// so that the value of its digits fits 64 bits.
fn unsigned(s: &[u8], neg: bool) -> Token
    ensures { result ≡ unsigned_of neg s.now }
{
    let n = s.len();
    if MOST_DIGITS + 1 < n {
        return Token::NoNumber;
    }
    let whole = digits(s, 0, 0);
    let at = whole.end;
    if at == n {
        return number(neg, whole.value, n, 0, 1);
    }
    if s[at] != b'.' {
        return Token::NoNumber;
    }
    let all = digits(s, at + 1, whole.value);
    if all.end < n {
        return Token::NoNumber;
    }
    number(neg, all.value, n - 1, n - 1 - at, all.five)
}

// Where a run of digits ends, the number that they make with those before it, and 5 to the power of how many they are.
#[derive(Clone, Copy)]
struct Run {
    value: u64,
    five: u64,
    end: usize,
}

fn digits(s: &[u8], from: usize, before: u64) -> Run
    requires { (from ≤ length s.now) × ((length s.now ≤ most_digits + 1) × (before < 10 ^ from)) }
    ensures { RunsTo s.now from before result.value result.five result.end }
{
    let mut value = before;
    let mut five: u64 = 1;
    for i in from..s.len() {
        let b = s[i];
        if !b.is_ascii_digit() {
            return Run {
                value,
                five,
                end: i,
            };
        }
        value = value * 10 + (b - b'0') as u64;
        five *= 5;
    }
    Run {
        value,
        five,
        end: s.len(),
    }
}

// n digits that make d, of which `places` stand after the point.
fn number(neg: bool, d: u64, n: usize, places: usize, five: u64) -> Token
    requires { (places ≤ n) × (five ≡ 5 ^ places) }
    ensures { result ≡ number_of neg d n places }
{
    if n == 0 {
        return Token::NoNumber;
    }
    if MOST_DIGITS < n {
        return Token::NoNumber;
    }
    Token::Number(nearest(neg, d, places, five))
}

// d / 10 ^ places to the nearest f32, a tie to even, negative where neg.
fn nearest(neg: bool, d: u64, places: usize, five: u64) -> f32
    requires { (places ≤ most_digits) × (five ≡ 5 ^ places) }
    ensures { result ≡ Ieee.round binary32 neg d (10 ^ places) }
{
    // Up to 2 ^ 24 f32 has every whole number, and 10 ^ 7 is the last power of ten below that.
    if d <= 16777216 {
        if places <= 7 {
            return short(neg, d, five << places);
        }
    }
    signed(neg, magnitude(d, places, five))
}

// The f32 of these bits, negative where neg.
fn signed(neg: bool, bits: u32) -> f32
    requires { bits ≤ 2139095040 }
    ensures { result ≡ Ieee.of_bits binary32 (cond neg (2 ^ 31) 0 + bits) }
{
    if neg {
        f32::from_bits(2147483648 + bits)
    } else {
        f32::from_bits(bits)
    }
}

// d / p to the nearest f32, where f32 has both: the one rounding is the division's.
fn short(neg: bool, d: u64, p: u64) -> f32
    requires { (d ≤ 2 ^ 24) × ((0 < p) × (p ≤ 2 ^ 24)) }
    ensures { result ≡ Ieee.round binary32 neg d p }
{
    let x = d as f32 / p as f32;
    if neg { -x } else { x }
}
