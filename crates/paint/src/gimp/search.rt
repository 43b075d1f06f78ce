// The segment that t lies in: of many segments in order it is guessed, and the guess is tested.
ghost use Rattle.std.specs.Prelude.{◌≡◌, true, ◌≤◌, ◌<◌};
ghost use Rattle.gradient.specs.Gimp.{segments, left_at, right_at, segment_found};
ghost use Rattle.paint.specs.inner.Segments.{segments_in_order, Orderly, strictly_inside};

use gradient::gimp;

// With fewer segments than this the search is as quick as a guess.
const MANY: usize = 32;

// Whether the positions rise, from 0 or later to 1 or before.
#[tactic(auto, unfolding(crate::specs::inner::Segments::segments_in_order))]
pub(crate) fn is_orderly(positions: &[f32]) -> bool
    ensures { result ≡ segments_in_order positions.now }
{
    let n = positions.len();
    3 <= n
        && !(positions[0] < 0.0)
        && !(positions[n - 1] > 1.0)
        && stops::is_steady(positions, positions[n - 1])
}

// 1 where t lies past the left end of segment i, else 0.
fn past(positions: &[f32], i: usize, t: f32) -> usize
    requires { i < segments positions.now }
    ensures { result ≤ 1 }
{
    stops::below(positions[3 * i], t)
}

// About the segment that t lies in; which one it is, is not promised. No branch has to be guessed.
fn guess(positions: &[f32], t: f32) -> usize
    requires { 1 ≤ segments positions.now }
    ensures { result < segments positions.now }
{
    let mut base = 0;
    let mut left = positions.len() / 3;
    while 3 < left {
        let part = left / 4;
        let a = past(positions, base + part, t);
        let b = past(positions, base + 2 * part, t);
        let c = past(positions, base + 3 * part, t);
        base += part * (a + b + c);
        left -= 3 * part;
    }
    if 2 < left {
        base + past(positions, base + 1, t) + past(positions, base + 2, t)
    } else if 1 < left {
        base + past(positions, base + 1, t)
    } else {
        base
    }
}

// Whether t lies inside segment i. Each of two answers is 1 or 0, and n times their sum is above n + i, where i is less than
// n, just where both are 1: one comparison, so that no branch has to be guessed.
fn is_inside(positions: &[f32], i: usize, t: f32) -> bool
    requires { i < segments positions.now }
    ensures { result ≡ strictly_inside (left_at positions.now i) (right_at positions.now i) t }
{
    let n = positions.len();
    let at = 3 * i;
    n + i < n * (stops::below(positions[at], t) + stops::below(t, positions[at + 2]))
}

// The segment whose colour is taken. Of many that are orderly one is guessed: where t lies inside it, it is the one that
// the search finds.
pub(crate) fn find_segment(positions: &[f32], t: f32, orderly: bool) -> usize
    requires { (1 ≤ segments positions.now) × (orderly ≡ true → Orderly positions.now) }
    ensures { result ≡ segment_found positions.now t }
{
    if orderly && 3 * MANY <= positions.len() {
        let g = guess(positions, t);
        if is_inside(positions, g, t) {
            return g;
        }
    }
    gimp::find_segment(positions, t)
}
