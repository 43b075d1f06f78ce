// The stretch that an edit reaches, which points lie outside it, and which cells are clear of it.
ghost use Rattle.std.specs.Prelude.{◌≡◌};
ghost use Rattle.float.specs.Number.{Within};
ghost use Rattle.refresh.specs.reach.Stretch.{reach_of, left_end, own_end, right_end, colour_stretch, stretch_between, before_of, after_of, outside_of, mids_outside, clear_of};

use sampling::Sampler;
use stops::{Kind, item};

// A point is before the stretch at `low` or below, where it lies below `below` too; it is after the stretch above `high`.
// Where no stop stands, the end is not-a-number: no point is outside on that side.
#[derive(Clone, Copy)]
pub struct Stretch {
    pub low: f32,
    pub below: f32,
    pub high: f32,
}

// How many pairs a stop's colour reaches on each side.
fn reach_of(kind: Kind) -> usize
    ensures { result ≡ reach_of kind }
{
    match kind {
        Kind::Basis | Kind::CatmullRom => 2,
        _ => 1,
    }
}

// The position so many places to the left of stop k.
#[tactic(auto, unfolding(crate::specs::reach::Stretch::left_end))]
fn left_end(positions: &[f32], reach: usize, k: usize) -> f32
    ensures { result ≡ left_end reach positions.now k }
{
    if k < reach {
        return f32::NAN; // no stop stands there; the pair at the end reads a mirrored one
    }
    item(positions, k - reach)
}

// The position of stop k where it is the last one, and else more than every position.
#[tactic(auto, unfolding(crate::specs::reach::Stretch::own_end))]
fn own_end(positions: &[f32], k: usize) -> f32
    ensures { result ≡ own_end positions.now k }
{
    if k < positions.len().saturating_sub(1) {
        f32::INFINITY
    } else {
        item(positions, k)
    }
}

// The position so many places to the right of stop k.
fn right_end(positions: &[f32], reach: usize, k: usize) -> f32
    ensures { result ≡ right_end reach positions.now k }
{
    item(positions, k.saturating_add(reach))
}

// The stretch of a change of the colour of stop k.
#[tactic(auto, unfolding(crate::specs::reach::Stretch::colour_stretch))]
pub(crate) fn colour_stretch(kind: Kind, positions: &[f32], k: usize) -> Stretch
    ensures { result ≡ colour_stretch (reach_of kind) positions.now k }
{
    let reach = reach_of(kind);
    let low = left_end(positions, reach, k);
    let below = own_end(positions, k);
    let high = right_end(positions, reach, k);
    Stretch { low, below, high }
}

// The stretch from stop i to stop j.
pub(crate) fn stretch_between(positions: &[f32], i: usize, j: usize) -> Stretch
    ensures { result ≡ stretch_between positions.now i j }
{
    let low = item(positions, i);
    let high = item(positions, j);
    Stretch {
        low,
        below: f32::INFINITY,
        high,
    }
}

#[tactic(auto, unfolding(crate::specs::reach::Stretch::before_of))]
fn lies_before(s: Stretch, t: f32) -> bool
    ensures { result ≡ before_of s t }
{
    t <= s.low && t < s.below
}

#[tactic(auto, unfolding(crate::specs::reach::Stretch::after_of))]
fn lies_after(s: Stretch, t: f32) -> bool
    ensures { result ≡ after_of s t }
{
    s.high < t
}

#[tactic(auto, unfolding(crate::specs::reach::Stretch::outside_of))]
fn outside(s: Stretch, t: f32) -> bool
    ensures { result ≡ outside_of s t }
{
    lies_before(s, t) || lies_after(s, t)
}

// Whether every midpoint of `left` full halvings is outside.
#[tactic(auto, unfolding(crate::specs::reach::Stretch::mids_outside))]
fn mids_outside(s: Stretch, t0: f32, t1: f32, left: usize) -> bool
    ensures { result ≡ mids_outside (outside_of s) left t0 t1 }
{
    if left == 0 {
        return true;
    }
    let mid = (t0 + t1) / 2.0;
    let n = left - 1;
    outside(s, mid) && mids_outside(s, t0, mid, n) && mids_outside(s, mid, t1, n)
}

// Whether the cell from t0 to t1 is clear. With both ends on one and the same outer side it is, and no midpoint
// is tried.
#[tactic(auto, unfolding(crate::specs::reach::Stretch::clear_of))]
pub(crate) fn is_clear(s: Stretch, t0: f32, t1: f32) -> bool
    requires { Within t0 × Within t1 }
    ensures { result ≡ clear_of (outside_of s) t0 t1 }
{
    if lies_before(s, t0) && lies_before(s, t1) {
        return true;
    }
    if lies_after(s, t0) && lies_after(s, t1) {
        return true;
    }
    outside(s, t0) && outside(s, t1) && mids_outside(s, t0, t1, Sampler::DEPTH)
}
