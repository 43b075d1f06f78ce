// What stops must be: the right shape, then stop by stop finite and not falling.
ghost use Rattle.std.specs.Prelude.{◌≡◌, true};
ghost use Rattle.std.specs.Float.{inf};
ghost use Rattle.stops.specs.Lent.{lent_ramp};
ghost use Rattle.stops.specs.Stops.{finite_rgba, shaped, stops_check, steady};
ghost use Rattle.stops.specs.Answers.{Checks};

use crate::{Checked, Kind, colour};
use blend::Rgba;
use refusals::{FALLING, MISSHAPEN, MOST_STOPS, NOT_FINITE};

pub fn is_finite_colour(c: Rgba) -> bool
    ensures { result ≡ finite_rgba c }
{
    float::is_finite(c.r) && float::is_finite(c.g) && float::is_finite(c.b) && float::is_finite(c.a)
}

// n positions, m channels and no code make a ramp of the kind.
fn is_shaped(kind: Kind, n: usize, m: usize, codes: usize) -> bool
    ensures { result ≡ shaped kind n m codes }
{
    2 <= n && n <= MOST_STOPS && m == 4 * n && codes == 0 && (kind != Kind::Sharp || n % 2 == 0)
}

// Refusal 1, then stop by stop 2 and 3.
pub fn check(kind: Kind, positions: &[f32], channels: &[f32], codes: &[u8]) -> Checked
    ensures { Checks (stops_check (lent_ramp kind positions channels codes)) result }
{
    let n = positions.len();
    if !is_shaped(kind, n, channels.len(), codes.len()) {
        return Checked::Refused(MISSHAPEN);
    }
    let mut prev = f32::NEG_INFINITY;
    for (i, &p) in positions.iter().enumerate() {
        if !float::is_finite(p) || !is_finite_colour(colour(channels, i)) {
            return Checked::Refused(NOT_FINITE);
        }
        if p < prev {
            return Checked::Refused(FALLING);
        }
        prev = p;
    }
    Checked::Fine
}

// Finite positions that do not fall and end at max.
pub fn is_steady(positions: &[f32], max: f32) -> bool
    ensures { result ≡ steady max (inf true) positions.now }
{
    let mut prev = f32::NEG_INFINITY;
    for &p in positions {
        if !float::is_finite(p) || p < prev {
            return false;
        }
        prev = p;
    }
    prev == max
}
