// A number by a power of ten, to the nearest f32, told by the first 40 binary digits of the power of five in it: one division
// of a word, wherever the digits that are left out cannot matter.
ghost use Rattle.std.specs.Prelude.{◌^◌, ◌≤◌, ◌<◌};
ghost use Rattle.decimal.specs.inner.Near.{FirstForty, NearOf};

use crate::quotient::{fitted, rounded};

// d / 10 ^ down: its bits but for the sign's, or none where they cannot be told so. Below the normal numbers, and near a quotient
// that is a tie or has no rest, the digits left out could matter.
pub(crate) fn near_magnitude(d: u64, down: u64) -> Option<u32>
    requires { (0 < d) × (down ≤ 64) }
    ensures { NearOf d (10 ^ down) result }
{
    let zeros = u64::leading_zeros(d);
    let taken = zeros as u64 + down + down * 4755 / 2048;
    if 188 < taken {
        return None;
    }
    if down < 18 {
        return None;
    }
    let num = d << zeros;
    let by = fitted(num, first_forty(down));
    let den = by.den;
    let m = num / den;
    let rest = num % den;
    if rest < 2 * m {
        return None;
    }
    if den <= rest * 2 {
        if rest * 2 - den <= 4 * m + 2 {
            return None;
        }
    }
    let q = rounded(m, rest, den);
    Some(((188 + by.up - taken) * 8388608 + q) as u32)
}

// The first 40 binary digits of 5 ^ n. Up to 5 ^ 17 there are no more, and past 5 ^ 56 no normal number is left. An array would
// be copied for each read; a match is one load.
fn first_forty(n: u64) -> u64
    requires { (18 ≤ n) × (n ≤ 56) }
    ensures { FirstForty n result }
{
    match n {
        18 => 953674316406,
        19 => 596046447753,
        20 => 745058059692,
        21 => 931322574615,
        22 => 582076609134,
        23 => 727595761418,
        24 => 909494701772,
        25 => 568434188608,
        26 => 710542735760,
        27 => 888178419700,
        28 => 555111512312,
        29 => 693889390390,
        30 => 867361737988,
        31 => 1084202172485,
        32 => 677626357803,
        33 => 847032947254,
        34 => 1058791184067,
        35 => 661744490042,
        36 => 827180612553,
        37 => 1033975765691,
        38 => 646234853557,
        39 => 807793566946,
        40 => 1009741958682,
        41 => 631088724176,
        42 => 788860905221,
        43 => 986076131526,
        44 => 616297582203,
        45 => 770371977754,
        46 => 962964972193,
        47 => 601853107621,
        48 => 752316384526,
        49 => 940395480657,
        50 => 587747175411,
        51 => 734683969263,
        52 => 918354961579,
        53 => 573971850987,
        54 => 717464813734,
        55 => 896831017167,
        _ => 560519385729,
    }
}
