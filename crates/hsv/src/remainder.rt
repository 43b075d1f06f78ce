// The remainder of an f32 by a small whole number, from its digits. Rust's `%` of two f32 is a call of the C library's `fmodf`,
// and a program linked with a new library's does not start on a system that has an older one.
ghost use Rattle.std.specs.Prelude.{◌≡◌, ◌*◌, ◌^◌, ◌%◌, ◌<◌, ◌≤◌};
ghost use Rattle.std.specs.Float.{binary32};
ghost use Rattle.std.specs.Float.Ieee.{of_bits, rem};
ghost use Rattle.float.specs.Number.{count_of};

use float::{FIELD, INFINITY, SIGN};

// What y leaves of r doubled n times, a multiple of y taken off at each doubling, so that nothing grows. The count has a name, `_i`,
// since the invariant speaks of it.
fn doubled(r: u32, n: u32, y: u32) -> u32
    requires { (r < y) × (y < 512) }
    ensures { result ≡ r * 2 ^ n % y }
{
    let mut left = r;
    for _i in 0..n {
        left = 2 * left % y;
    }
    left
}

// What y leaves of the number with the pattern a, from 1 up to the infinity: of its 24 digits times 2 ^ (field - 150). Below
// a field of 150 the digits count parts of 1, and what is left is so many of the same parts: the quotient is exact.
fn left(a: u32, y: u32) -> f32
    requires { (0x3f80_0000 ≤ a) × (a < 0x7f80_0000) × (0 < y) × (y < 512) }
    ensures { result ≡ rem binary32 (of_bits binary32 a) (count_of y) }
{
    let field = a / FIELD;
    let digits = FIELD + a % FIELD;
    if field < 150 {
        let parts = 1 << (150 - field);
        let rest = digits % (y * parts);
        rest as f32 / parts as f32
    } else {
        let rest = doubled(digits % y, field - 150, y);
        rest as f32
    }
}

// Rust's x % y: with x's sign, and of a NaN or an infinity the NaN.
pub(crate) fn remainder(x: f32, y: u32) -> f32
    requires { (0 < y) × (y < 512) }
    ensures { result ≡ rem binary32 x (count_of y) }
{
    if float::magnitude(x) < y as f32 {
        return x;
    }
    let bits = float::to_bits(x);
    if INFINITY <= bits % SIGN {
        return 0.0 / 0.0;
    }
    if bits < SIGN {
        left(bits, y)
    } else {
        -left(bits - SIGN, y)
    }
}
