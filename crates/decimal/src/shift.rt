// A number times a power of ten, to the nearest f32: the point moved up or down.
ghost use Rattle.std.specs.Prelude.{◌≡◌, ◌⊎◌, ◌*◌, ◌^◌, ◌≤◌, ◌<◌};
ghost use Rattle.std.specs.Float.Ieee as Ieee;
ghost use Rattle.std.specs.Float.{binary32};
ghost use Rattle.decimal.specs.inner.Steps.{BitsOf};
ghost use Rattle.decimal.specs.inner.Counted.{Cancels, MovedIs};

use crate::near::near_magnitude;
use crate::quotient::magnitude;
use crate::signed;
use crate::wide::long_magnitude;

// value with zeros behind it and places after the point, moved by a power of ten, to the nearest f32. A number of 64 binary
// digits is beyond every f32 when it is moved up 100 places, and nothing when it is moved down so far.
pub(crate) fn moved(neg: bool, value: u64, zeros: u64, places: u64, power: u64, lower: bool) -> f32
    requires { (zeros < 2 ^ 63) × (places < 2 ^ 63) }
    ensures { MovedIs neg value zeros places power lower result }
{
    if lower {
        if zeros + 100 < power {
            return nearest_long(neg, value, 0, 100);
        }
        let by = cancelled(zeros, power);
        return nearest_long(neg, value, by.up, places + by.down);
    }
    if places + 100 < power {
        return nearest_long(neg, value, 100, 0);
    }
    let by = cancelled(power, places);
    nearest_long(neg, value, zeros + by.up, by.down)
}

// What is left of a without b, and of b without a.
#[derive(Clone, Copy)]
struct Left {
    up: u64,
    down: u64,
}

fn cancelled(a: u64, b: u64) -> Left
    ensures { Cancels a b result.up result.down }
{
    if a < b {
        return Left { up: 0, down: b - a };
    }
    Left { up: a - b, down: 0 }
}

// d * 10 ^ up / 10 ^ down to the nearest f32, a tie to even, negative where neg.
fn nearest_long(neg: bool, d: u64, up: u64, down: u64) -> f32
    ensures { result ≡ Ieee.round binary32 neg (d * 10 ^ up) (10 ^ down) }
{
    let by = cancelled(up, down);
    signed(neg, tens_magnitude(d, by.up, by.down))
}

// Its bits but for the sign's. 39 places up even 1 is beyond every f32, and 65 down even 64 binary digits are nothing.
fn tens_magnitude(d: u64, up: u64, down: u64) -> u32
    requires { (up ≡ 0) ⊎ (down ≡ 0) }
    ensures { BitsOf (d * 10 ^ up) (10 ^ down) result }
{
    if d == 0 {
        return 0;
    }
    if 38 < up {
        return 2139095040;
    }
    if 64 < down {
        return 0;
    }
    if up == 0 {
        return down_magnitude(d, down);
    }
    long_magnitude(d, up, down)
}

// Most are told by one division. Of the others few places down take a division of one word.
fn down_magnitude(d: u64, down: u64) -> u32
    requires { (0 < d) × (down ≤ 64) }
    ensures { BitsOf d (10 ^ down) result }
{
    match near_magnitude(d, down) {
        Some(bits) => bits,
        None if down <= 27 => magnitude(d, down as usize, 5u64.pow(down as u32)),
        None => long_magnitude(d, 0, down),
    }
}
