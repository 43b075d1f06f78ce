// A block of colours: those of the points from one on, as many as it has room for.
ghost use Rattle.std.specs.Prelude.{◌≡◌, ◌+◌, ◌≤◌, ◌<◌, length};
ghost use Rattle.gradient.specs.Ramp.{check_of, colour_of};
ghost use Rattle.sampling.specs.inner.Steps.{Carrying, PointAt};
ghost use Rattle.stops.specs.declared.Checked.TheVariants.{Fine};
ghost use Rattle.within.specs.inner.Weighing.{is_up_to, NearPair, HoldsAt, ColoursInHand, InHandWith, AfterAt, Fills, Covers};
ghost use Rattle.gradient.specs.Lent.{lent_ramp};

use crate::fair::colour_of;
use gradient::Ramp;
use sampling::Point;
use sampling::cells::{drawn_at, evaluate, evaluate_along, placed};
use stops::{Place, Window, segments};

// The colours of a block.
const BLOCK: usize = 1024;

// Whether t lies past stop k - 1 and up to stop k, and is not the last one's. A point at a stop, or just above one, is found so,
// where a pair without its ends would be searched for.
#[tactic(auto, unfolding(crate::specs::inner::Weighing::is_up_to))]
fn is_up_to(positions: &[f32], t: f32, k: usize) -> bool
    ensures { result ≡ is_up_to positions.now t k }
{
    let n = positions.len();
    k != 0 && k < n && (positions[k - 1] < t) & (t <= positions[k]) & (t < positions[n - 1])
}

// The pair of t, where it is k or the one after it; else 0.
fn pair_near(positions: &[f32], t: f32, k: usize) -> usize
    ensures { NearPair positions.now t result }
{
    if is_up_to(positions, t, k) {
        k
    } else if k < positions.len() && is_up_to(positions, t, k + 1) {
        k + 1
    } else {
        0
    }
}

// The point at t, tried in the pair k, which goes along, and in the one after it.
fn point_in(ramp: &Ramp<'_>, t: f32, k: usize, drawn: &mut [[f32; 4]; 7]) -> Point
    requires codes_value { check_of (lent_ramp ramp.now) ≡ Fine }
    requires carrying { Carrying (lent_ramp ramp.now) k drawn.old }
    ensures point_at { PointAt (colour_of (lent_ramp ramp.now)) t result }
    ensures carrying_2 { Carrying (lent_ramp ramp.now) result.pair drawn.new }
{
    if gradient::is_gimp(ramp.kind) {
        return evaluate_along(ramp, t, k, drawn);
    }
    let j = pair_near(ramp.positions, t, k);
    if j == 0 {
        return evaluate_along(ramp, t, k, drawn);
    }
    if segments::is_catmull_rom(ramp.kind) {
        return drawn_at(
            ramp.positions,
            ramp.channels,
            t,
            Place::Between(j),
            k,
            drawn,
        );
    }
    placed(
        ramp.kind,
        ramp.positions,
        ramp.channels,
        t,
        Place::Between(j),
    )
}

// The colours of `count` points from `base` on.
fn fill_each(
    ramp: &Ramp<'_>,
    ts: &[f32; 10753],
    base: usize,
    count: usize,
    block: &mut [[f32; 4]; 1024],
)
    requires codes_value { (check_of (lent_ramp ramp.now) ≡ Fine) × ((base + count ≤ 10753) × (count ≤ 1024)) }
    requires block_len { length block.old ≡ 1024 }
    ensures { ColoursInHand (colour_of (lent_ramp ramp.now)) ts.now (record { base = base; count = count }) block.new }
{
    let mut drawn = [[0.0f32; 4]; 7];
    let mut guess = 0;
    for i in 0..count {
        let x = point_in(ramp, ts[base + i], guess, &mut drawn);
        guess = x.pair;
        let c = x.colour;
        block[i] = [c.r, c.g, c.b, c.a];
    }
}

// The colours of the points from `base` on, up to `to`, as many as there is room for.
fn fill(
    ramp: &Ramp<'_>,
    ts: &[f32; 10753],
    base: usize,
    to: usize,
    block: &mut [[f32; 4]; 1024],
) -> Window
    requires codes_value { (check_of (lent_ramp ramp.now) ≡ Fine) × ((base ≤ to) × (to ≤ 10753)) }
    requires block_len { length block.old ≡ 1024 }
    ensures { Fills (lent_ramp ramp.now) ts.now base to block.new result }
{
    let count = (to - base).min(BLOCK);
    fill_each(ramp, ts, base, count, block);
    Window { base, count }
}

// A window has an index.
fn holds(w: Window, i: usize) -> bool
    ensures { HoldsAt w i result }
{
    w.base <= i && i - w.base < w.count
}

// A block that has the colour of point i: the one in hand, or one filled from i on.
pub(crate) fn refill(
    ramp: &Ramp<'_>,
    ts: &[f32; 10753],
    w: Window,
    i: usize,
    to: usize,
    block: &mut [[f32; 4]; 1024],
) -> Window
    requires codes_value { (check_of (lent_ramp ramp.now) ≡ Fine) × ((i < to) × (to ≤ 10753)) }
    requires colours_in_hand { ColoursInHand (colour_of (lent_ramp ramp.now)) ts.now w block.old }
    ensures { Covers (lent_ramp ramp.now) ts.now i block.new result }
{
    if holds(w, i) {
        return w;
    }
    fill(ramp, ts, i, to, block)
}

// The r-th point from `from` on; past the points it is max.
pub(crate) fn point_after(
    ramp: &Ramp<'_>,
    ts: &[f32; 10753],
    marks: &[u8; 10753],
    from: usize,
    count: usize,
    end: Point,
    guess: usize,
    r: usize,
    w: Window,
    block: &[[f32; 4]; 1024],
) -> Point
    requires codes_value { (check_of (lent_ramp ramp.now) ≡ Fine) × ((from ≤ count) × ((count ≤ 10753) × ((1 ≤ r) × (from + r ≤ count + 1)))) }
    requires in_hand_with { InHandWith (lent_ramp ramp.now) ts.now w block.now end }
    ensures { AfterAt (lent_ramp ramp.now) end ts.now marks.now from count r result }
{
    let j = from + r - 1;
    if count <= j {
        return end;
    }
    if holds(w, j) {
        return Point {
            colour: colour_of(block, j - w.base),
            t: ts[j],
            pair: 0,
        };
    }
    evaluate(ramp, ts[j], guess)
}
