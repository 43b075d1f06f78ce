// The colours beside a pair of stops, the colour between the two by the kind, and the colour at a place.
ghost use Rattle.std.specs.Prelude.{◌≡◌};
ghost use Rattle.stops.specs.Place.{place_in};
ghost use Rattle.stops.specs.Pair.{beyond, left_of, right_of, pair_of, between, colour_in};

use crate::{BLACK, Kind, Place, colour, find_place, less, stop};
use blend::{Rgba, Stop, basis, catmull_rom, linear, sharp, smoothstep};

// What would lie past the end p from q.
fn past(p: Rgba, q: Rgba) -> Rgba
    ensures { result ≡ beyond p q }
{
    Rgba {
        r: 2.0 * p.r - q.r,
        g: 2.0 * p.g - q.g,
        b: 2.0 * p.b - q.b,
        a: 2.0 * p.a - q.a,
    }
}

// The colours beside the pair k - 1, k of n stops, whose colours are p and q.
pub fn left_of(channels: &[f32], k: usize, p: Rgba, q: Rgba) -> Rgba
    ensures { result ≡ left_of channels.now k p q }
{
    if 1 < k {
        colour(channels, k - 2)
    } else {
        past(p, q)
    }
}

pub fn right_of(channels: &[f32], n: usize, k: usize, p: Rgba, q: Rgba) -> Rgba
    ensures { result ≡ right_of channels.now n k p q }
{
    if k < less(n) {
        colour(channels, k + 1)
    } else {
        past(q, p)
    }
}

// The colour between p, which is stop k - 1, and q, which is stop k, of n stops.
fn pair_colour(kind: Kind, channels: &[f32], n: usize, k: usize, p: Stop, q: Stop, t: f32) -> Rgba
    ensures { result ≡ pair_of kind channels.now n k p q t }
{
    match kind {
        Kind::Linear => linear::pair_colour(p, q, t),
        Kind::Smoothstep => smoothstep::pair_colour(p, q, t),
        Kind::Sharp => sharp::pair_colour(less(k), p, q, t),
        Kind::Basis => basis::pair_colour(
            left_of(channels, k, p.colour, q.colour),
            p,
            q,
            right_of(channels, n, k, p.colour, q.colour),
            t,
        ),
        Kind::CatmullRom => catmull_rom::pair_colour(
            left_of(channels, k, p.colour, q.colour),
            p,
            q,
            right_of(channels, n, k, p.colour, q.colour),
            t,
        ),
        Kind::Gimp | Kind::GimpSaved => BLACK,
    }
}

fn between_at(kind: Kind, positions: &[f32], channels: &[f32], k: usize, t: f32) -> Rgba
    ensures { result ≡ between kind positions.now channels.now k t }
{
    let p = stop(positions, channels, less(k));
    let q = stop(positions, channels, k);
    pair_colour(kind, channels, positions.len(), k, p, q, t)
}

// The colour at a place.
pub fn colour_in(kind: Kind, positions: &[f32], channels: &[f32], t: f32, place: Place) -> Rgba
    ensures { result ≡ colour_in kind positions.now channels.now t place }
{
    match place {
        Place::End(i) => colour(channels, i),
        Place::Nowhere => BLACK,
        Place::Between(k) => between_at(kind, positions, channels, k, t),
    }
}

pub fn colour_at(kind: Kind, positions: &[f32], channels: &[f32], t: f32) -> Rgba
    ensures { result ≡ colour_in kind positions.now channels.now t (place_in positions.now t) }
{
    colour_in(kind, positions, channels, t, find_place(positions, t))
}
