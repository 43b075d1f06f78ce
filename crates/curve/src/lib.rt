// The factor of a curved segment of a GIMP gradient: 0 at its left end, 1/2 at its middle, 1 at its right end, by sums, products
// and quotients alone.
#![tactic(auto)]

ghost use Rattle.std.specs.Prelude.{◌≡◌, ◌/◌, ◌^◌, ◌≤◌, ◌<◌, T};
ghost use Rattle.std.specs.Float.Ieee.{lt, le};
ghost use Rattle.float.specs.F32.{f0, f1};
ghost use Rattle.curve.specs.Depth.{series_of, part_of, level_of, depth_of};
ghost use Rattle.curve.specs.Factor.{power_of, lowered_of, fall_of, factor_of};

use float::FIELD;

// The pattern of 1/2.
const HALF: u32 = 0x3f00_0000;

// 2^24.
const LIFT: f32 = 16777216.0;

// The depth of m by s = (1 - m) / (1 + m): a sum of the odd powers of s.
fn series(s: f32) -> f32
    ensures { result ≡ series_of s }
{
    let z = s * s;
    s * (2.88539 + z * (0.96193 + z * (0.5707 + z * 0.498)))
}

// The depth of m, from 1/2 to below 1: from 1 down to above 0.
fn part(m: f32) -> f32
    ensures { result ≡ part_of m }
{
    series((1.0 - m) / (1.0 + m))
}

// The depth of what the pattern b stands for, where the field that `most` is of means 1/2 to below 1.
fn level(b: u32, most: u32) -> f32
    requires { b / 2 ^ 23 ≤ most }
    ensures { result ≡ level_of b most }
{
    float::from_whole((most - b / FIELD) as u64) + part(f32::from_bits(HALF + b % FIELD))
}

// How many halvings lead from 1 to x. A subnormal has no field to tell by: its 2^24th multiple has.
fn depth(x: f32) -> f32
    requires { T (lt f0 x) × T (lt x f1) }
    ensures { result ≡ depth_of x }
{
    let b = x.to_bits();
    if b < FIELD {
        level((x * LIFT).to_bits(), 150)
    } else {
        level(b, 126)
    }
}

// 2 to the power u, from 0 to 1.
fn power(u: f32) -> f32
    ensures { result ≡ power_of u }
{
    1.0 + u * (0.69315 + u * (0.24016 + u * (0.05584 + u * (0.00895 + u * 0.0019))))
}

// One half to the power r, whose whole part is j: half as much for each whole step, and 2^u for what is left of the last.
fn lowered(r: f32, j: u32) -> f32
    requires { j < 32 }
    ensures { result ≡ lowered_of r j }
{
    f32::from_bits((126 - j) * FIELD) * power(1.0 - (r - float::from_whole(j as u64)))
}

// One half to the power r.
fn fall(r: f32) -> f32
    requires { T (le f0 r) }
    ensures { result ≡ fall_of r }
{
    if r >= 32.0 {
        0.0
    } else {
        lowered(r, float::whole(r) as u32)
    }
}

// The factor at a place of a curved segment, both it and the middle counted from 0 at the left end to 1 at the right. It is 0 up
// to place 0 and 1 from place 1 on; between, a middle that is not inside is passed at once, or never. A NaN stays one.
pub fn factor(place: f32, middle: f32) -> f32
    ensures { result ≡ factor_of place middle }
{
    if place != place {
        return place;
    }
    if place <= 0.0 {
        return 0.0;
    }
    if place >= 1.0 {
        return 1.0;
    }
    if middle != middle {
        return middle;
    }
    if middle <= 0.0 {
        return 1.0;
    }
    if middle >= 1.0 {
        return 0.0;
    }
    fall(depth(place) / depth(middle))
}
