// The nearest f32 to a number of up to 64 binary digits times a power of ten: a long division of whole numbers below 2 ^ 180.
ghost use Rattle.std.specs.Prelude.{◌≡◌};
ghost use Prim.Native.Nat.{◌+◌, ◌*◌, ◌^◌, ◌<◌, ◌≤◌, compare};
ghost use Rattle.std.specs.Float.Ieee as Ieee;
ghost use Rattle.decimal.specs.inner.Steps.{BitsOf};
ghost use Rattle.decimal.specs.inner.Wide.{word, value_of, Roomy, Raised, LongDivides, OneMore};

use crate::three_words::{WORD, Wide};
use std::cmp::Ordering;

// The bits of the f32 nearest to d * 10 ^ up / 10 ^ down, but for the sign's. The twos of the tens go into the exponent:
// the division is of d * 5 ^ up by 5 ^ down.
pub(crate) fn long_magnitude(d: u64, up: u64, down: u64) -> u32
    requires { (0 < d) × ((up ≤ 38) × (down ≤ 64)) }
    ensures { BitsOf (d * 10 ^ up) (10 ^ down) result }
{
    let num = fives(d, up);
    let by = raised(num, fives(1, down));
    let den = by.den;
    let most = 149 + up + by.up - down;
    let f = long_divided(num, den, most);
    let unit = most - f.down;
    if 253 < unit {
        return 2139095040;
    }
    let rest = f.rest;
    let q = long_rounded(f.m, rest, den);
    (unit * 8388608 + q) as u32
}

impl From<u64> for Wide {
    ghost from_gives = { λ d w. value_of w ≡ d };

    fn from(d: u64) -> Wide {
        Wide {
            hi: 0,
            mid: d / WORD,
            lo: d % WORD,
        }
    }
}

// d times 5 ^ n.
fn fives(d: u64, n: u64) -> Wide
    requires { Roomy (d * 5 ^ n) }
    ensures { value_of result ≡ d * 5 ^ n }
{
    let mut w = Wide::from(d);
    for _ in 0..n {
        w = times(w, 5);
    }
    w
}

// Each word takes what the one below it is over.
fn times(w: Wide, k: u64) -> Wide
    requires { (w.hi < 2 * word) × (k ≤ 5) }
    ensures { value_of result ≡ value_of w * k }
{
    let lo = w.lo * k;
    let mid = w.mid * k + lo / WORD;
    let hi = w.hi * k + mid / WORD;
    Wide {
        hi,
        mid: mid % WORD,
        lo: lo % WORD,
    }
}

// The difference of a and b, which is no more: each word borrows one of the word above it, and gives it back where it is over.
fn without(a: Wide, b: Wide) -> Wide
    requires hi_bound { a.hi < 4 * word }
    requires b_bound { value_of b ≤ value_of a }
    ensures { value_of result + value_of b ≡ value_of a }
{
    let lo = a.lo + WORD - b.lo;
    let mid = a.mid + WORD - b.mid - (1 - lo / WORD);
    let hi = a.hi - b.hi - (1 - mid / WORD);
    Wide {
        hi,
        mid: mid % WORD,
        lo: lo % WORD,
    }
}

// A divisor doubled up times.
#[derive(Clone, Copy)]
struct Above {
    den: Wide,
    up: u64,
}

// den doubled until it is more than num.
fn raised(num: Wide, den: Wide) -> Above
    requires { (0 < value_of den) × ((den.hi < word) × Roomy (value_of num)) }
    ensures { Raised (value_of num) (value_of den) result.den result.up }
{
    let mut d = den;
    let mut up: u64 = 0;
    while d <= num {
        d = times(d, 2);
        up += 1;
    }
    Above { den: d, up }
}

// num divided by den in binary, to down places past the point.
#[derive(Clone, Copy)]
struct Divided {
    m: u64,
    rest: Wide,
    down: u64,
}

// Until the quotient has 24 digits, or most places were taken.
fn long_divided(num: Wide, den: Wide, most: u64) -> Divided
    requires { (value_of num < value_of den) × (den.hi < 2 * word) }
    ensures hi_bound { result.rest.hi < 2 * word }
    ensures long_divides { LongDivides (value_of num) (value_of den) most result.m (value_of result.rest) result.down }
{
    let mut m: u64 = 0;
    let mut rest = num;
    let mut down: u64 = 0;
    while m < 8388608 {
        if down == most {
            return Divided { m, rest, down };
        }
        let next = next_digit(m, rest, den);
        m = next.m;
        rest = next.rest;
        down += 1;
    }
    Divided { m, rest, down }
}

// A quotient with one more digit, and what is left.
#[derive(Clone, Copy)]
struct Longer {
    m: u64,
    rest: Wide,
}

fn next_digit(m: u64, rest: Wide, den: Wide) -> Longer
    requires { (value_of rest < value_of den) × ((den.hi < 2 * word) × (m < 8388608)) }
    ensures { OneMore m (value_of rest) (value_of den) result.m (value_of result.rest) }
{
    let two = times(rest, 2);
    if two < den {
        return Longer {
            m: m * 2,
            rest: two,
        };
    }
    Longer {
        m: m * 2 + 1,
        rest: without(two, den),
    }
}

// m, or the next number up where the rest is more than half of den, or half of it and m is odd.
fn long_rounded(m: u64, rest: Wide, den: Wide) -> u64
    requires hi_bound { rest.hi < 2 * word }
    requires m_bound { m < 16777216 }
    ensures { result ≡ Ieee.nearest m (compare (value_of rest * 2) (value_of den)) }
{
    match times(rest, 2).cmp(&den) {
        Ordering::Less => m,
        Ordering::Equal => m + m % 2,
        Ordering::Greater => m + 1,
    }
}
