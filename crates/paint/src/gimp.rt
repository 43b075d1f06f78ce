// GIMP segments painted: the colours at many points. A segment is held while the points that follow each other lie in it.
// The slices are read without a test.
ghost use Rattle.std.specs.Prelude.{◌≡◌, true, false, ◌++◌, ◌+◌, ◌*◌, ◌≤◌, ◌<◌, length};
ghost use Rattle.blend.specs.Channels.{channels_of};
ghost use Rattle.gradient.specs.Gimp.{segments, blending_at, colouring_at, is_costly, gimp_segment, blended, gimp_colour};
ghost use Rattle.paint.specs.Canvas.{painted_over};
ghost use Rattle.paint.specs.inner.Segments.{Cut, Fits, Orderly, strictly_inside, Peeked, Starts, Written};

use crate::pairs::colour;
use crate::put_colour;
use blend::Rgba;
use gradient::gimp;
use gradient::gimp::Segment;
use stops::BLACK;

mod search;

// Segment i. `gradient` reads the same segment from any slices at all; this reading makes fewer tests, because it is done
// anew at each point that has left its segment.
fn hold(positions: &[f32], channels: &[f32], codes: &[u8], i: usize) -> Segment
    requires { Cut positions.now channels.now codes.now × (i < segments positions.now) }
    ensures { result ≡ gimp_segment positions.now channels.now codes.now i }
{
    let lcolor = colour(channels, 2 * i);
    let rcolor = colour(channels, 2 * i + 1);
    Segment {
        left: positions[3 * i],
        middle: positions[3 * i + 1],
        right: positions[3 * i + 2],
        lcolor,
        rcolor,
        blending: codes[2 * i],
        colouring: codes[2 * i + 1],
    }
}

// Point j, or the other number where j is past the points that may be painted. The loop below looks one point ahead, past
// the last one too: the left end of its segment, which does not lie inside it, then ends it by the one test that it makes.
fn point_or(ts: &[f32], j: usize, end: usize, other: f32) -> f32
    requires { end ≤ length ts.now }
    ensures { Peeked ts.now j end other result }
{
    if j < end { ts[j] } else { other }
}

// The same test as `is_inside` of `search`, branched: of points in order nearly every one lies inside, so the branch is guessed rightly.
fn is_strictly_inside(left: f32, right: f32, t: f32) -> bool
    ensures { result ≡ strictly_inside left right t }
{
    left < t && t < right
}

// The colour at a place of a segment that is neither by hue nor curved. A step takes one of the two ends by its number: no branch
// has to be guessed.
fn shade(g: Segment, ends: &[f32], pivot: f32, place: f32) -> Rgba
    requires { (is_costly g.blending g.colouring ≡ false) × (ends.now ≡ channels_of g.lcolor ++ channels_of g.rcolor) }
    ensures { result ≡ blended g pivot place }
{
    if g.blending == gimp::STEP {
        colour(ends, (place >= pivot) as usize)
    } else if g.blending == gimp::SINUSOIDAL {
        gimp::blend_wave(g, pivot, place)
    } else {
        gimp::blend(g, pivot, place)
    }
}

// The colour at a place of a segment, by hue or curved where COSTLY says so.
fn shade_by<const COSTLY: bool>(g: Segment, ends: &[f32], pivot: f32, place: f32) -> Rgba
    requires { (is_costly g.blending g.colouring ≡ COSTLY) × (ends.now ≡ channels_of g.lcolor ++ channels_of g.rcolor) }
    ensures { result ≡ blended g pivot place }
{
    if COSTLY {
        gimp::blend_costly(g, pivot, place)
    } else {
        shade(g, ends, pivot, place)
    }
}

// Paints from point `start`, whose segment is s, as far as the points before `end` lie in it. Gives the first that is
// left. The place of the next point is worked out before the colour of this one, so that its division does not wait.
// A segment that is by hue or curved has its own instance: its colour is asked for by a call, for which the loop of the
// others would keep the whole segment in memory.
fn paint_held<const COSTLY: bool>(
    positions: &[f32],
    channels: &[f32],
    codes: &[u8],
    ts: &[f32],
    out: &mut [f32],
    s: usize,
    start: usize,
    end: usize,
) -> usize
    requires fits { Fits positions.now channels.now codes.now ts.now out.old }
    requires starts { Starts positions.now ts.now s start end × (is_costly (blending_at codes.now s) (colouring_at codes.now s) ≡ COSTLY) }
    ensures { Written (gimp_colour positions.now channels.now codes.now) ts.now start result out.old out.new }
{
    let g = hold(positions, channels, codes, s);
    let p = g.lcolor;
    let q = g.rcolor;
    let ends = [p.r, p.g, p.b, p.a, q.r, q.g, q.b, q.a];
    let pivot = gimp::place_along(g.left, g.right, g.middle);
    let mut i = start;
    let mut place = gimp::place_along(g.left, g.right, ts[start]);
    let mut on = true;
    while on {
        let t = point_or(ts, i + 1, end, g.left);
        let ahead = gimp::place_along(g.left, g.right, t);
        let c = shade_by::<COSTLY>(g, &ends, pivot, place);
        put_colour(out, 4 * i, c);
        i += 1;
        place = ahead;
        on = is_strictly_inside(g.left, g.right, t);
    }
    i
}

// Paints point i, and those that follow it in its segment. Gives the first that is left.
fn paint_on(
    positions: &[f32],
    channels: &[f32],
    codes: &[u8],
    ts: &[f32],
    out: &mut [f32],
    orderly: bool,
    i: usize,
) -> usize
    requires fits { Fits positions.now channels.now codes.now ts.now out.old }
    requires orderly { (orderly ≡ true → Orderly positions.now) × (i < length ts.now) }
    ensures { Written (gimp_colour positions.now channels.now codes.now) ts.now i result out.old out.new }
{
    let t = ts[i];
    if gimp::is_off_domain(t) {
        put_colour(out, 4 * i, BLACK);
        return i + 1;
    }
    let s = search::find_segment(positions, t, orderly);
    let end = if orderly { ts.len() } else { i + 1 };
    if gimp::is_costly(codes[2 * s], codes[2 * s + 1]) {
        paint_held::<true>(positions, channels, codes, ts, out, s, i, end)
    } else {
        paint_held::<false>(positions, channels, codes, ts, out, s, i, end)
    }
}

// Writes the colours at ts, four channels for each, one segment after the other.
pub(crate) fn paint(positions: &[f32], channels: &[f32], codes: &[u8], ts: &[f32], out: &mut [f32])
    requires { Fits positions.now channels.now codes.now ts.now out.old }
    ensures { out.new ≡ painted_over (gimp_colour positions.now channels.now codes.now) ts.now out.old }
{
    let orderly = search::is_orderly(positions);
    let mut i = 0;

    // A turn paints as many points as lie in one segment.
    while i < ts.len() {
        i = paint_on(positions, channels, codes, ts, out, orderly, i);
    }
}
