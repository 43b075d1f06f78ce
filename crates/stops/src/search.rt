// The place of t among the positions of stops.
ghost use Rattle.std.specs.Prelude.{◌≡◌, cond, ◌≤◌};
ghost use Rattle.std.specs.Float.Ieee.{lt};
ghost use Rattle.stops.specs.Place.{narrowed_at, place_in};

use crate::{Place, item, less};

// 1 where x is below t, else 0.
pub fn below(x: f32, t: f32) -> usize
    ensures { (result ≡ cond (lt x t) 1 0) × (result ≤ 1) }
{
    usize::from(x < t)
}

// The first index whose position is t or more; t lies past the first position and before the last.
// Two answers are added, and what is left does not depend on them: so no branch has to be guessed.
fn narrowed(positions: &[f32], t: f32) -> usize
    ensures { result ≡ narrowed_at t positions.now }
{
    let mut base = 0;
    let mut left = less(positions.len());
    while 2 < left {
        let third = left / 3;
        let two = third * 2;
        base += third * (below(positions[base + third], t) + below(positions[base + two], t));
        left -= two;
    }
    if 1 < left {
        return base + below(positions[base + 1], t) + 1;
    }
    base + 1
}

pub fn find_place(positions: &[f32], t: f32) -> Place
    ensures { result ≡ place_in positions.now t }
{
    let last = less(positions.len());
    if t <= item(positions, 0) {
        return Place::End(0);
    }
    if t >= item(positions, last) {
        return Place::End(last);
    }
    if t.is_nan() {
        return Place::Nowhere;
    }
    Place::Between(narrowed(positions, t))
}
