// What a list must be by itself: its length, and its stops.
ghost use Rattle.std.specs.Prelude.{◌≡◌};
ghost use Rattle.judge.specs.Lists.{sized, good_stop, lent_offer, first_bad};

use stops::{colour, is_finite_colour, item, less};

// The stops of the longest list: every point of a record, and max.
const MOST_LISTED: usize = 4609;

// n positions and m channels make a list.
pub(crate) fn is_sized(n: usize, m: usize) -> bool
    ensures { result ≡ sized n m }
{
    2 <= n && n <= MOST_LISTED && m == 4 * n
}

// Stop i is finite, and not below the one before it; the first is compared with itself.
fn is_good(positions: &[f32], channels: &[f32], i: usize) -> bool
    ensures { result ≡ good_stop positions.now channels.now i }
{
    let p = item(positions, i);
    float::is_finite(p) && is_finite_colour(colour(channels, i)) && !(p < item(positions, less(i)))
}

// The first stop that is not, and the number of stops where all are.
pub(crate) fn first_bad(positions: &[f32], channels: &[f32]) -> usize
    ensures { result ≡ first_bad (lent_offer positions channels) }
{
    for i in 0..positions.len() {
        if !is_good(positions, channels, i) {
            return i;
        }
    }
    positions.len()
}
