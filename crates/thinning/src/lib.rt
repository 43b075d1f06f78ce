// The steps of thinning, over points that carry their colours: a point is skipped, dropped or kept, and a stop is written.
#![tactic(auto)]

ghost use Rattle.std.specs.Prelude.{◌≡◌, ◌*◌, ◌/◌, min};
ghost use Rattle.std.proofs.lemmas.List.Edits.{sets};
ghost use Rattle.blend.specs.Channels.{channels_of};
ghost use Rattle.difference.specs.Difference.{exceeds};
ghost use Rattle.thinning.specs.Counts.{sum_of};
ghost use Rattle.thinning.specs.Kept.{near_of, stop_refusal};
ghost use Rattle.thinning.specs.Walk.{weigh_of, run_was, run_is, emit_run, step_run};

use blend::Rgba;
use blend::utils::interpolate_linear;
use difference::stands_out;
use refusals::{LIST_FALLING, LIST_NOT_FINITE, NO_ROOM};
use sampling::Point;
use slices::put;
use stops::channels::put_colour;
use stops::is_finite_colour;

// The last point kept, how many stops were written and how many points weighed, and the refusal (0 for none).
#[derive(Clone, Copy)]
pub struct Progress {
    pub last: Point,
    pub stops: usize,
    pub tried: usize,
    pub refusal: u8,
}

// What weighing a point comes to: whether it is kept, and 1 unless it is skipped.
#[derive(Clone, Copy)]
pub struct Weighed {
    pub kept: bool,
    pub tried: usize,
}

// 2^-23.
const NEAR: f32 = 0.00000011920928955078125;

// The sum of two counts, or the largest where the sum is none.
pub fn sum(a: usize, b: usize) -> usize
    ensures { result ≡ sum_of a b }
{
    a.saturating_add(b)
}

// The whole stops that both outputs hold.
pub fn room_of(positions: usize, channels: usize) -> usize
    ensures { result ≡ min positions (channels / 4) }
{
    positions.min(channels / 4)
}

// Nearer than 2^-23: as two comparisons, since the magnitude asks for the sign first.
fn near(last: f32, x: f32) -> bool
    ensures { result ≡ near_of last x }
{
    let d = last - x;
    (d < NEAR) & (-NEAR < d)
}

// 7, 8, 9, or 0 where the stop may be written.
#[tactic(auto, unfolding(crate::specs::Kept::stop_refusal))]
pub fn stop_refusal(room: usize, n: usize, last: f32, t: f32, c: Rgba) -> u8
    ensures { result ≡ stop_refusal room n last t c }
{
    if room <= n {
        NO_ROOM
    } else if !float::is_finite(t) || !is_finite_colour(c) {
        LIST_NOT_FINITE
    } else if t < last {
        LIST_FALLING
    } else {
        0
    }
}

// The colour of stop n, as much of it as there is room for.
fn put_stop(out: &mut [f32], n: usize, c: Rgba)
    ensures { out.new ≡ sets out.old (4 * n) (channels_of c) }
{
    if n < out.len() {
        put_colour(out, 4 * n, c);
    }
}

// Writes a stop at p, unless it is refused; as much of it as the outputs have room for.
pub fn emit(room: usize, s: Progress, p: Point, places: &mut [f32], colours: &mut [f32]) -> Progress
    ensures { run_is result places colours ≡ emit_run room (run_was s places colours) p }
{
    let n = s.stops;
    let last = s.last;
    let refusal = stop_refusal(room, n, last.t, p.t, p.colour);
    if refusal != 0 {
        return Progress {
            last,
            stops: n,
            tried: s.tried,
            refusal,
        };
    }
    put(places, n, p.t);
    put_stop(colours, n, p.colour);
    Progress {
        last: p,
        stops: n + 1,
        tried: s.tried,
        refusal: 0,
    }
}

// Weighs x between the last point kept and the next: it is skipped, dropped or kept. A list made whole and one handed out a
// stop at a time both weigh by this. There is no branch, not even past a point that is skipped: the compiler then puts it into
// both loops, where behind a call the three points would go through memory.
pub fn weigh(cutoff: f32, last: Point, x: Point, next: Point) -> Weighed
    ensures { result ≡ weigh_of (exceeds cutoff) last x next }
{
    let skipped = near(last.t, x.t);
    let foretold = interpolate_linear(last.colour, next.colour, (x.t - last.t) / (next.t - last.t));
    let far = stands_out(cutoff, x.colour, foretold);
    Weighed {
        kept: !skipped & far,
        tried: (!skipped) as usize,
    }
}

// A step of a list that is made whole: x is weighed, and written where it is kept.
pub fn step(
    cutoff: f32,
    room: usize,
    s: Progress,
    x: Point,
    next: Point,
    places: &mut [f32],
    colours: &mut [f32],
) -> Progress
    ensures { run_is result places colours ≡ step_run (exceeds cutoff) room (run_was s places colours) x next }
{
    let kept = s.last;
    let w = weigh(cutoff, kept, x, next);
    let weighed = Progress {
        last: kept,
        stops: s.stops,
        tried: sum(s.tried, w.tried),
        refusal: s.refusal,
    };
    if !w.kept {
        return weighed;
    }
    emit(room, weighed, x, places, colours)
}
