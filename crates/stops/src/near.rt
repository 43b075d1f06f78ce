// Points taken one after the other: the pair of the last point is tried before the search, and a Catmull-Rom
// segment is kept while the pair stays.
ghost use Rattle.std.specs.Prelude.{◌≡◌};
ghost use Rattle.stops.specs.Near.{is_between, place_near, pair_or, segment_for, segment_in};

use crate::{BLACK, Place, below, colour, left_of, less, right_of, stop};
use blend::{Rgba, catmull_rom, utils};

// Whether t lies past stop k - 1 and before stop k. Each of the two answers is 1 or 0, and k is less than n, the number of
// stops: so n times their sum is above n + k just where both are 1, being 2n then and else at most n. One comparison serves,
// since two branches would be guessed wrong too often.
pub fn is_between(positions: &[f32], t: f32, k: usize) -> bool
    ensures { result ≡ is_between positions.now t k }
{
    if k == 0 {
        return false;
    }
    if positions.len() <= k {
        return false;
    }
    let n = positions.len();
    n + k < n * (below(positions[k - 1], t) + below(t, positions[k]))
}

pub fn find_place(positions: &[f32], t: f32, k: usize) -> Place
    ensures { result ≡ place_near positions.now t k }
{
    if is_between(positions, t, k) {
        Place::Between(k)
    } else {
        crate::find_place(positions, t)
    }
}

pub fn pair_or(place: Place, k: usize) -> usize
    ensures { result ≡ pair_or place k }
{
    match place {
        Place::End(_) | Place::Nowhere => k,
        Place::Between(j) => j,
    }
}

pub fn segment_for(channels: &[f32], n: usize, k: usize) -> [[f32; 4]; 4]
    ensures { result ≡ segment_for channels.now n k }
{
    let p = colour(channels, less(k));
    let q = colour(channels, k);
    let left = left_of(channels, k, p, q);
    let right = right_of(channels, n, k, p, q);
    catmull_rom::segment(left, p, q, right)
}

pub fn segment_colour(
    positions: &[f32],
    channels: &[f32],
    s: [[f32; 4]; 4],
    t: f32,
    place: Place,
) -> Rgba
    ensures { result ≡ segment_in positions.now channels.now s t place }
{
    match place {
        Place::End(i) => colour(channels, i),
        Place::Nowhere => BLACK,
        Place::Between(k) => {
            let p = stop(positions, channels, less(k));
            let q = stop(positions, channels, k);
            catmull_rom::segment_at(s, utils::share(p, q, t))
        }
    }
}
