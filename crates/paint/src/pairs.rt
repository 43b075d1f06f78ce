// Stops that passed the check, read without the tests that it made: the place of t, and the colour there.
ghost use Rattle.std.specs.Prelude.{◌≡◌, ◌+◌, ◌*◌, ◌≤◌, ◌<◌, length};
ghost use Rattle.stops.specs.Stops.{colour_at, stop_at};
ghost use Rattle.stops.specs.Place.{Rising, first_at, place_of};
ghost use Rattle.stops.specs.Pair.{between};
ghost use Rattle.paint.specs.inner.Steps.{Span, Sought, Placed, stop_colour};

use blend::{Rgba, Stop, linear, sharp, smoothstep};
use stops::{BLACK, Kind, Place, near};

// The largest power of two below n.
pub(crate) fn span_of(n: usize) -> usize
    requires { 2 ≤ n }
    ensures { Span n result }
{
    let last = n - 1;
    let mut size = 1;
    while size <= last - size {
        size += size;
    }
    size
}

// The first index whose position is t or more; t lies past the first position and before the last. Three
// answers are added at each turn, and the turns do not depend on them: so no branch has to be guessed.
fn search(positions: &[f32], t: f32, span: usize) -> usize
    requires { Sought positions.now t span }
    ensures { result ≡ first_at t positions.now }
{
    let low = positions.len() - 1 - span;
    let mut base = low * stops::below(positions[low], t);
    let mut size = span;
    while 2 < size {
        size /= 4;
        base += size
            * (stops::below(positions[base + size], t)
                + stops::below(positions[base + 2 * size], t)
                + stops::below(positions[base + 3 * size], t));
    }
    if 1 < size {
        base + stops::below(positions[base + 1], t) + 1
    } else {
        base + 1
    }
}

// The pair k is tried before the search.
pub(crate) fn find_place(positions: &[f32], t: f32, k: usize, span: usize) -> Place
    requires rising { Rising positions.now }
    requires span { Span (length positions.now) span }
    ensures { result ≡ place_of positions.now t }
{
    if near::is_between(positions, t, k) {
        return Place::Between(k);
    }
    let last = positions.len() - 1;
    if t <= positions[0] {
        return Place::End(0);
    }
    if t >= positions[last] {
        return Place::End(last);
    }
    if t != t {
        return Place::Nowhere;
    }
    Place::Between(search(positions, t, span))
}

// Colour i, read without a test.
pub(crate) fn colour(channels: &[f32], i: usize) -> Rgba
    requires { 4 * i + 4 ≤ length channels.now }
    ensures { result ≡ colour_at channels.now i }
{
    let at = 4 * i;
    Rgba {
        r: channels[at],
        g: channels[at + 1],
        b: channels[at + 2],
        a: channels[at + 3],
    }
}

fn stop_at(positions: &[f32], channels: &[f32], i: usize) -> Stop
    requires { (i < length positions.now) × (length channels.now ≡ 4 * length positions.now) }
    ensures { result ≡ stop_at positions.now channels.now i }
{
    Stop {
        position: positions[i],
        colour: colour(channels, i),
    }
}

// The colour between stop k - 1 and stop k. The quick kinds are mixed here: behind the call that the splines take,
// their stops would go through memory.
fn pair_at(kind: Kind, positions: &[f32], channels: &[f32], k: usize, t: f32) -> Rgba
    requires { (1 ≤ k) × (k < length positions.now) × (length channels.now ≡ 4 * length positions.now) }
    ensures { result ≡ between kind positions.now channels.now k t }
{
    let p = stop_at(positions, channels, k - 1);
    let q = stop_at(positions, channels, k);
    match kind {
        Kind::Linear => linear::pair_colour(p, q, t),
        Kind::Smoothstep => smoothstep::pair_colour(p, q, t),
        Kind::Sharp => sharp::pair_colour(k - 1, p, q, t),
        Kind::Basis | Kind::CatmullRom | Kind::Gimp | Kind::GimpSaved => {
            stops::colour_in(kind, positions, channels, t, Place::Between(k))
        }
    }
}

// The colour at the place of t.
pub(crate) fn colour_in(
    kind: Kind,
    positions: &[f32],
    channels: &[f32],
    t: f32,
    place: Place,
) -> Rgba
    requires { Placed positions.now channels.now t place }
    ensures { result ≡ stop_colour kind positions.now channels.now t }
{
    match place {
        Place::End(i) => stops::colour(channels, i),
        Place::Nowhere => BLACK,
        Place::Between(k) => pair_at(kind, positions, channels, k, t),
    }
}
