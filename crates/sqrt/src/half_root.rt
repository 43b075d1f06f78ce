// The samplers' test, half the root of s above t, as one comparison of s with a cutoff.
ghost use Rattle.std.specs.Prelude.{◌≡◌, not, ◌+◌, ◌≤◌, T};
ghost use Rattle.std.specs.Float.{binary32};
ghost use Rattle.std.specs.Float.Ieee.{of_bits};
ghost use Rattle.sqrt.specs.Cutoff.{above, IsCutoff};

use super::root;
use float::INFINITY;

// Whether the test holds of the f32 with the pattern b, from +0 up to the infinity.
fn passes(b: u32, t: f32) -> bool
    requires { b ≤ 0x7f80_0000 }
    ensures { result ≡ above t (of_bits binary32 b) }
{
    root(f32::from_bits(b)) / 2.0 > t
}

// From any pattern down to one at which the test fails. It fails at +0, so the way down ends.
fn down_to_fail(start: u32, t: f32) -> u32
    requires { (start ≤ 0x7f80_0000) × T (not (above t (of_bits binary32 0))) }
    ensures { (result ≤ 0x7f80_0000) × T (not (above t (of_bits binary32 result))) }
{
    let mut b = start;
    while passes(b, t) {
        b -= 1;
    }
    b
}

// From a pattern at which the test fails up to the last such.
fn up_to_last(start: u32, t: f32) -> u32
    requires { (start ≤ 0x7f80_0000) × T (not (above t (of_bits binary32 start))) }
    ensures { (result ≤ 0x7f80_0000) × T (not (above t (of_bits binary32 result)))
        × (result + 1 ≤ 0x7f80_0000 → T (above t (of_bits binary32 (result + 1)))) }
{
    let mut b = start;
    while b < INFINITY {
        if passes(b + 1, t) {
            return b;
        }
        b += 1;
    }
    b
}

// The pattern of the square of 2 * t, or near it. Its closeness is not promised: the search from there
// takes a few steps, and would end at the same pattern from any other. A NaN starts at the infinity.
fn start(t: f32) -> u32
    ensures { result ≤ 0x7f80_0000 }
{
    let twice = t + t;
    let square = twice * twice;
    if square != square {
        return INFINITY;
    }
    square.to_bits().min(INFINITY)
}

// For every f32 s: half the root of s is above t exactly when s is above the result. Below zero the test
// holds from -0 on, so the result is -2^-149; at a NaN and at the infinity it never holds.
pub fn cutoff(t: f32) -> f32
    ensures { IsCutoff t result }
{
    if t < 0.0 {
        return f32::from_bits(0x8000_0001);
    }
    let b = up_to_last(down_to_fail(start(t), t), t);
    f32::from_bits(b)
}
