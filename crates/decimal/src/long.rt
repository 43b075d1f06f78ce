// A token with any number of digits and perhaps an exponent, read as a number: rounded once to the nearest f32, or no number.
ghost use Rattle.std.specs.Prelude.{◌≡◌, ◌^◌, ◌≤◌, ◌<◌, length, drop};
ghost use Rattle.decimal.specs.Long.{read_long_of, is_mark};
ghost use Rattle.decimal.specs.inner.Counted.{is_point, SignAt, DecimalOf, PowerTo, TenTimes, NumberIs, AfterIs};

use crate::shift::moved;
use crate::tally::{MOST_SIGNIFICANT, count_digits};
use crate::{Token, read};

// A power of ten from here on is beyond every number of digits that a slice can have.
const HUGE: u64 = 10000000000000000000;

// The most bytes of a short token without a sign: 18 digits and a point. With one it may have 20, and is read by parts.
const LONGEST_SHORT: usize = 19;

// A token: an optional sign, digits with at most one point, and perhaps an exponent. Most are short, and are read as such.
pub fn read_long(s: &[u8]) -> Token
    ensures { result ≡ read_long_of s.now }
{
    // The slice is made anew, and the answer told anew: a copy of either would wait for its stores.
    let all = &s[0..];
    if all.len() <= LONGEST_SHORT {
        if let Token::Number(x) = read(all) {
            return Token::Number(x);
        }
    }
    match by_parts(all) {
        Token::Number(x) => Token::Number(x),
        Token::NoNumber => Token::NoNumber,
    }
}

// Each of its parts is read by one call, so that the compiler puts them all in here: a slice that is passed on is copied.
fn by_parts(s: &[u8]) -> Token
    ensures { result ≡ read_long_of s.now }
{
    let d = digits_of(s);
    with_power(s, d)
}

// The sign and the digits of a token, of which `places` stand after the point, and where they end.
#[derive(Clone, Copy)]
struct Decimal {
    neg: bool,
    value: u64,
    count: u32,
    zeros: usize,
    all: usize,
    places: usize,
    end: usize,
}

fn digits_of(s: &[u8]) -> Decimal
    ensures { DecimalOf s.now result.neg result.value result.count result.zeros result.all result.places result.end }
{
    let sign = sign_at(s, 0);
    let from = sign.end;
    let whole = count_digits(s, from, 0, 0, 0);
    let at = whole.end;
    if !is_point(s, at) {
        return Decimal {
            neg: sign.minus,
            value: whole.value,
            count: whole.count,
            zeros: whole.zeros,
            all: at - from,
            places: 0,
            end: at,
        };
    }
    let both = count_digits(s, at + 1, whole.value, whole.count, whole.zeros);
    let end = both.end;
    let places = end - (at + 1);
    Decimal {
        neg: sign.minus,
        value: both.value,
        count: both.count,
        zeros: both.zeros,
        all: at - from + places,
        places,
        end,
    }
}

// Whether a minus stands there, and where what follows a sign begins.
#[derive(Clone, Copy)]
struct Sign {
    minus: bool,
    end: usize,
}

fn sign_at(s: &[u8], at: usize) -> Sign
    requires { at ≤ length s.now }
    ensures { SignAt s.now at result.minus result.end }
{
    if at == s.len() {
        return Sign {
            minus: false,
            end: at,
        };
    }
    let b = s[at];
    if b == b'-' {
        return Sign {
            minus: true,
            end: at + 1,
        };
    }
    if b == b'+' {
        return Sign {
            minus: false,
            end: at + 1,
        };
    }
    Sign {
        minus: false,
        end: at,
    }
}

fn is_point(s: &[u8], at: usize) -> bool
    requires { at ≤ length s.now }
    ensures { result ≡ is_point (drop at s.now) }
{
    if at == s.len() {
        return false;
    }
    s[at] == b'.'
}

// The digits, and what follows them.
fn with_power(s: &[u8], d: Decimal) -> Token
    requires { (d.end ≤ length s.now) × ((d.zeros < 2 ^ 63) × (d.places < 2 ^ 63)) }
    ensures { AfterIs d.neg d.value d.count d.zeros d.all d.places (drop d.end s.now) result }
{
    let at = d.end;
    if at == s.len() {
        return number(d, 0, false);
    }
    if !is_mark(s[at]) {
        return Token::NoNumber;
    }
    let sign = sign_at(s, at + 1);
    let from = sign.end;
    let power = power_at(s, from);
    let end = power.end;
    if end == from {
        return Token::NoNumber;
    }
    if end < s.len() {
        return Token::NoNumber;
    }
    number(d, power.value, sign.minus)
}

fn is_mark(b: u8) -> bool
    ensures { result ≡ is_mark b }
{
    if b == b'e' {
        return true;
    }
    b == b'E'
}

// The number that digits make, or where it is HUGE or more some number that is, and where they end.
#[derive(Clone, Copy)]
struct Power {
    value: u64,
    end: usize,
}

fn power_at(s: &[u8], from: usize) -> Power
    requires { from ≤ length s.now }
    ensures { PowerTo s.now from result.value result.end }
{
    let mut value: u64 = 0;
    for i in from..s.len() {
        let b = s[i];
        if !b.is_ascii_digit() {
            return Power { value, end: i };
        }
        value = ten_times(value, b);
    }
    Power {
        value,
        end: s.len(),
    }
}

fn ten_times(value: u64, b: u8) -> u64
    requires { (48 ≤ b) × (b ≤ 57) }
    ensures { TenTimes value b result }
{
    if HUGE / 10 <= value {
        return HUGE;
    }
    value * 10 + (b - b'0') as u64
}

fn number(d: Decimal, power: u64, lower: bool) -> Token
    requires { (d.zeros < 2 ^ 63) × (d.places < 2 ^ 63) }
    ensures { NumberIs d.neg d.value d.count d.zeros d.all d.places power lower result }
{
    if d.all == 0 {
        return Token::NoNumber;
    }
    if MOST_SIGNIFICANT < d.count {
        return Token::NoNumber;
    }
    let x = moved(
        d.neg,
        d.value,
        d.zeros as u64,
        d.places as u64,
        power,
        lower,
    );
    Token::Number(x)
}
