// What the source takes from Rust's f32. There is one NaN: nobody promises its sign and payload.
#![tactic(auto)]

ghost use Rattle.std.specs.Prelude.{◌≡◌, ◌^◌, ◌≤◌};
ghost use Rattle.std.specs.Float.{binary32};
ghost use Rattle.std.specs.Float.Ieee.{of_bits, to_bits, to_unsigned};
ghost use Rattle.std.specs.Float.Ieee.Nearest.{closest};
ghost use Rattle.std.specs.Float.Ieee.Scale.{finite};
ghost use Rattle.float.specs.Number.{magnitude_of, clamp_of, whole_of, count_of, above_of, below_of};

// The weight of the exponent's field in a pattern: the first pattern that is not subnormal.
pub const FIELD: u32 = 0x0080_0000;

// The weight of the sign: the pattern of -0.
pub const SIGN: u32 = 0x8000_0000;

// The pattern of the infinity: the first that is not finite.
pub const INFINITY: u32 = 0x7f80_0000;

// Neither a NaN nor an infinity.
pub fn is_finite(x: f32) -> bool
    ensures { result ≡ finite x }
{
    x.is_finite()
}

// x with the sign's bit cleared. For a NaN, which has no one pattern, the division is there to keep its test a branch: the
// compiler would join two answers that cost nothing, and all other numbers would pay for it. So it does with `x.abs()`, by which
// a number whose sign is foreseen takes 1.8 times as long.
pub fn magnitude(x: f32) -> f32
    ensures { result ≡ magnitude_of x }
{
    if x != x {
        return x / x;
    }
    let bits = x.to_bits();
    if bits < SIGN {
        x
    } else {
        f32::from_bits(bits - SIGN)
    }
}

// Below 0 to 0, above 1 to 1; -0 and NaN stay as they are.
pub fn clamp(x: f32) -> f32
    ensures { result ≡ clamp_of x }
{
    x.clamp(0.0, 1.0)
}

// The whole part of what the pattern a stands for, from +0 up to the infinity; from 2 ^ 64 on the last u64. Its 24 digits
// are moved to the top of 64 places, and down again by what the exponent's field leaves.
fn whole_part(a: u32) -> u64
    requires { a ≤ 0x7f80_0000 }
    ensures { result ≡ to_unsigned 64 (of_bits binary32 a) }
{
    let field = a / FIELD;
    if field < 127 {
        0
    } else if 190 < field {
        u64::MAX
    } else {
        let digits = (FIELD + a % FIELD) as u64 * 0x100_0000_0000;
        digits >> (190 - field)
    }
}

// The whole part of x toward zero; past the range of i64 the nearest end, and 0 for a NaN. `std::num::saturating_f32_to_i64` gives
// the same by way of an f64, and makes the factor of a sinusoidal segment an eighth slower.
pub fn whole(x: f32) -> i64
    ensures { result ≡ whole_of x }
{
    if x != x {
        return 0;
    }
    let b = x.to_bits();
    let n = whole_part(b % SIGN);
    if b < SIGN {
        if n < 9223372036854775808 {
            n as i64
        } else {
            i64::MAX
        }
    } else if n < 9223372036854775808 {
        -(n as i64)
    } else {
        i64::MIN
    }
}

// The first 24 of 64 places, rounded by the 40 below: a tie to the even one.
fn leading(num: u64) -> u32
    ensures { result ≡ closest num (2 ^ 40) }
{
    let m = num / 0x100_0000_0000;
    let rest = num % 0x100_0000_0000;
    if rest * 2 + m % 2 <= 0x100_0000_0000 {
        m as u32
    } else {
        m as u32 + 1
    }
}

// The f32 nearest to n, a tie to the even one. Below 2 ^ 23 the digits of n are the last ones of 2 ^ 23 + n, where a
// pattern has them as they are. `std::num::nearest_u64_to_f32` gives the same, and makes the factor of a curved segment 12% slower.
pub fn from_whole(n: u64) -> f32
    ensures { result ≡ count_of n }
{
    if n < 8388608 {
        f32::from_bits(0x4b00_0000 + n as u32) - 8388608.0
    } else {
        let zeros = n.leading_zeros();
        let digits = leading(n << zeros);
        f32::from_bits((189 - zeros) * FIELD + digits)
    }
}

// The f32 with the pattern b: every NaN's pattern gives the one NaN.
pub fn from_bits(b: u32) -> f32
    ensures { result ≡ of_bits binary32 b }
{
    std::num::f32_from_bits_with_nan(b)
}

// The pattern of x: of a NaN, whose sign and payload are nobody's promise, always 7fc00000.
pub fn to_bits(x: f32) -> u32
    ensures { result ≡ to_bits binary32 x }
{
    std::num::f32_to_bits_with_nan(x)
}

// The f32 just above x, from its pattern at once; above 0 it is the least of all, above infinity and a NaN there is none.
pub fn above(x: f32) -> f32
    ensures { result ≡ above_of x }
{
    if 0.0 < x {
        let bits = x.to_bits();
        if bits == INFINITY {
            f32::NAN
        } else {
            f32::from_bits(bits + 1)
        }
    } else if x < 0.0 {
        -f32::from_bits(x.to_bits() - SIGN - 1)
    } else if x == 0.0 {
        f32::from_bits(1)
    } else {
        f32::NAN
    }
}

// The f32 just below x.
pub fn below(x: f32) -> f32
    ensures { result ≡ below_of x }
{
    -above(-x)
}
