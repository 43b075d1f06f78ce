// The colour between two stops.
ghost use Rattle.std.specs.Prelude.{◌≡◌};
ghost use Rattle.stops.specs.Pair.{between, colour_in};
ghost use Rattle.stops.specs.declared.Place.TheVariants.{Between};

use blend::{Rgba, basis, linear, sharp, smoothstep};
use stops::{Kind, Place};

// The colour between stop k - 1 and stop k. It is mixed here: behind the call that any place takes, the stops would go through
// memory at each point.
pub(crate) fn pair_at(kind: Kind, positions: &[f32], channels: &[f32], k: usize, t: f32) -> Rgba
    ensures { result ≡ between kind positions.now channels.now k t }
{
    let lower = stops::less(k);
    let p = stops::stop(positions, channels, lower);
    let q = stops::stop(positions, channels, k);
    match kind {
        Kind::Linear => linear::pair_colour(p, q, t),
        Kind::Smoothstep => smoothstep::pair_colour(p, q, t),
        Kind::Sharp => sharp::pair_colour(lower, p, q, t),
        Kind::Basis => basis::pair_colour(
            stops::left_of(channels, k, p.colour, q.colour),
            p,
            q,
            stops::right_of(channels, positions.len(), k, p.colour, q.colour),
            t,
        ),
        Kind::CatmullRom | Kind::Gimp | Kind::GimpSaved => {
            any_pair(kind, positions, channels, k, t)
        }
    }
}

// The same, behind that call. Its slices are made anew: handed on as they came, they would be copied at each point of every
// kind, and wait for both of their words.
fn any_pair(kind: Kind, positions: &[f32], channels: &[f32], k: usize, t: f32) -> Rgba
    ensures { result ≡ colour_in kind positions.now channels.now t (Between k) }
{
    stops::colour_in(kind, &positions[0..], &channels[0..], t, Place::Between(k))
}
