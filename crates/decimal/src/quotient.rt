// A number by a power of ten, to the nearest f32: one division of a word, by the power of five in it.
ghost use Rattle.std.specs.Prelude.{◌≡◌};
ghost use Prim.Native.Nat.{◌*◌, ◌^◌, ◌<◌, ◌≤◌, compare};
ghost use Rattle.std.specs.Float.Ieee as Ieee;
ghost use Rattle.decimal.specs.inner.Steps.{DoublesTo, ScalesTo, FitsTo, DividesTo, BitsOf};

// The bits of the f32 nearest to d / 10 ^ places, but for the sign's. The twos of 10 ^ places go into
// the exponent: the divisor is a power of five, below 2 ^ 63 up to 5 ^ 27, and one division of 64 bits gives most
// of the 24 binary digits of an f32.
pub(crate) fn magnitude(d: u64, places: usize, five: u64) -> u32
    requires { (places ≤ 27) × (five ≡ 5 ^ places) }
    ensures { BitsOf d (10 ^ places) result }
{
    if d == 0 {
        return 0;
    }
    let zeros = u64::leading_zeros(d);
    let num = d << zeros;
    let by = scaled(num, five);
    let den = by.den;
    let up = by.up;
    let f = divided(num, den);
    let down = zeros as u64 + f.down + places as u64;
    let q = rounded(f.m, f.rest, den);
    ((149 + up - down) * 8388608 + q) as u32
}

// How often five is doubled to reach 2 ^ 39: not at all where it is more.
fn doublings(five: u64) -> u32
    requires { (0 < five) × (five < 2 ^ 63) }
    ensures { DoublesTo five result }
{
    let zeros = u64::leading_zeros(five);
    if zeros < 24 {
        return 0;
    }
    zeros - 24
}

// A divisor doubled up times.
#[derive(Clone, Copy)]
pub(crate) struct Divisor {
    pub(crate) den: u64,
    pub(crate) up: u64,
}

// Five doubled to reach 2 ^ 39, and once more where the quotient of num would have more than 24 digits.
fn scaled(num: u64, five: u64) -> Divisor
    requires { (0 < five) × (five < 2 ^ 63) }
    ensures { ScalesTo num five result.den result.up }
{
    let up = doublings(five);
    let by = fitted(num, five << up);
    Divisor {
        den: by.den,
        up: up as u64 + by.up,
    }
}

// den, or twice that where the quotient of num would have more than 24 digits.
pub(crate) fn fitted(num: u64, den: u64) -> Divisor
    requires { (2 ^ 39 ≤ den) × (den < 2 ^ 63) }
    ensures { FitsTo num den result.den result.up }
{
    if den <= num / 16777216 {
        return Divisor {
            den: den * 2,
            up: 1,
        };
    }
    Divisor { den, up: 0 }
}

// num divided by den in binary, to down places past the point.
#[derive(Clone, Copy)]
struct Quotient {
    m: u64,
    rest: u64,
    down: u64,
}

// Until the quotient has 24 digits: at once up to 5 ^ 17, and a digit at a time past that.
fn divided(num: u64, den: u64) -> Quotient
    requires { (2 ^ 63 ≤ num) × ((den < 2 ^ 63) × (num < 16777216 * den)) }
    ensures { DividesTo num den result.m result.rest result.down }
{
    let mut m = num / den;
    let mut rest = num % den;
    let mut down: u64 = 0;
    while m < 8388608 {
        rest = rest * 2;
        m = m * 2;
        if den <= rest {
            m = m + 1;
            rest = rest - den;
        }
        down += 1;
    }
    Quotient { m, rest, down }
}

// m, or the next number up where the rest is more than half of den, or half of it and m is odd.
pub(crate) fn rounded(m: u64, rest: u64, den: u64) -> u64
    requires { (m < 16777216) × ((rest < den) × (den < 2 ^ 63)) }
    ensures { result ≡ Ieee.nearest m (compare (rest * 2) den) }
{
    if rest * 2 + m % 2 <= den { m } else { m + 1 }
}
