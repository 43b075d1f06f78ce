// A number as text: 9 significant digits in plain decimal, which read back as the same number.
#![tactic(auto)]

ghost use Rattle.std.specs.Prelude.{◌≡◌, ◌+◌, ◌-◌, ◌*◌, ◌^◌, ◌<◌, ◌≤◌, max, length, replicate, T};
ghost use Rattle.std.proofs.lemmas.List.Edits.{sets};
ghost use Rattle.std.specs.Float.Ieee.Positive.{above};
ghost use Rattle.numerals.specs.Written.{digits, plain_decimal, nine, places, signed, writable, text_of, TextIs};
ghost use Rattle.numerals.specs.inner.Steps.{with_sign, Ranging, Nines, Settled};

// The smallest and the greatest magnitude that can be written.
const LEAST: f32 = 0.000001;

const MOST: f32 = 1000000.0;

// A number as text: the first len of the bytes, and 0 after them. There is none where the number cannot be written.
// The bytes lie in it, as there is no heap, and a len of 0 says none, as the contract of `write` does, on which C's calls rest.
#[derive(Clone, Copy)]
pub struct Numeral {
    pub bytes: [u8; 18],
    pub len: usize,
}

// Zero, and magnitudes from 1e-6 to 1e6, both as f32.
pub fn is_writable(x: f32) -> bool
    ensures { result ≡ writable x }
{
    if x != x {
        return false;
    }
    let size = float::magnitude(x);
    if size < LEAST {
        return !(0.0 < size);
    }
    !(MOST < size)
}

// A number as text: 9 significant digits, `0` and `-0` for the zeros, nothing for one that cannot be written.
pub fn write(x: f32) -> Numeral
    ensures { TextIs (text_of x) result.bytes result.len }
{
    if x != x {
        return none();
    }
    if x < 0.0 {
        return sized(-x, true);
    }
    if 0.0 < x {
        return sized(x, false);
    }
    let mut bytes = [0u8; 18];
    if f32::to_bits(x) == 0 {
        bytes[0] = b'0';
        return Numeral { bytes, len: 1 };
    }
    bytes[0] = b'-';
    bytes[1] = b'0';
    Numeral { bytes, len: 2 }
}

fn none() -> Numeral
    ensures { (result.bytes ≡ replicate 18 0) × (result.len ≡ 0) }
{
    Numeral {
        bytes: [0u8; 18],
        len: 0,
    }
}

// A number above 0, written after the sign. Its bits have its 24 binary digits and how far down they stand.
fn sized(y: f32, neg: bool) -> Numeral
    requires { T (above y) }
    ensures { TextIs (text_of (with_sign neg y)) result.bytes result.len }
{
    if y < LEAST {
        return none();
    }
    if MOST < y {
        return none();
    }
    let b = f32::to_bits(y);
    let m = b % 8388608 + 8388608;
    let field = b / 8388608;
    nine_text(m as u64, (150 - field) as u64, neg)
}

// m / 2 ^ shift with nine digits, after the sign.
fn nine_text(m: u64, shift: u64, neg: bool) -> Numeral
    requires { Ranging m shift }
    ensures { TextIs (signed neg (nine m (2 ^ shift) (places 15 m (2 ^ shift) 0))) result.bytes result.len }
{
    let mut bytes = [0u8; 18];
    let Nine { d, k, ten } = settled(m, shift);
    if neg {
        bytes[0] = b'-';
        let n = put_plain(&mut bytes, 1, d, k, ten);
        return Numeral { bytes, len: n };
    }
    let n = put_plain(&mut bytes, 0, d, k, ten);
    Numeral { bytes, len: n }
}

// Nine digits and how many of them stand after the point: d / 10 ^ k, with ten = 10 ^ k.
#[derive(Clone, Copy)]
struct Nine {
    d: u64,
    k: usize,
    ten: u64,
}

// m / 2 ^ shift to the nearest decimal of nine digits; where ten came of it, with one place fewer.
fn settled(m: u64, shift: u64) -> Nine
    requires { Ranging m shift }
    ensures { Settled m shift result.d result.k result.ten }
{
    let Nine { d, k, ten } = nine_of(m, shift);
    if d == 1000000000 {
        return Nine {
            d: 100000000,
            k: k - 1,
            ten: ten / 10,
        };
    }
    Nine { d, k, ten }
}

// Tenfold until the quotient has nine digits, then to the nearest, a tie to the even one. The twos of each ten are taken
// off the denominator.
fn nine_of(m: u64, shift: u64) -> Nine
    requires { Ranging m shift }
    ensures { Nines m shift result.d result.k result.ten }
{
    let mut a = m;
    let mut den = 1u64 << shift;
    let mut k: usize = 0;
    let mut ten: u64 = 1;
    while a / den < 100000000 {
        a = a * 5;
        den = den / 2;
        k += 1;
        ten = ten * 10;
    }
    let q = a / den;
    if a % den * 2 + q % 2 <= den {
        return Nine { d: q, k, ten };
    }
    Nine { d: q + 1, k, ten }
}

// d / 10 ^ k, at `at`; where the text ends.
fn put_plain(out: &mut [u8], at: usize, d: u64, k: usize, ten: u64) -> usize
    requires { (at ≤ 1) × ((length out.old ≡ 18) × ((k ≤ 15) × (ten ≡ 10 ^ k))) }
    ensures { (result ≡ at + length (plain_decimal d k)) × (out.new ≡ sets out.old at (plain_decimal d k)) }
{
    let w = width(k);
    put_digits(out, at, w, d / ten);
    let dot = at + w;
    out[dot] = b'.';
    put_digits(out, dot + 1, k, d);
    dot + 1 + k
}

// How many digits stand before the point, of nine with k places.
fn width(k: usize) -> usize
    ensures { result ≡ max 1 (9 - k) }
{
    if k < 9 { 9 - k } else { 1 }
}

// The last w digits of x, at `at`.
fn put_digits(out: &mut [u8], at: usize, w: usize, x: u64)
    requires { at + w ≤ length out.old }
    ensures { out.new ≡ sets out.old at (digits w x) }
{
    let mut y = x;
    for i in (0..w).rev() {
        out[at + i] = b'0' + (y % 10) as u8;
        y /= 10;
    }
}
