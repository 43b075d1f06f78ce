// The points of a record, one after the other: the first at which a list's colour is too far from the ramp's.
ghost use Rattle.std.specs.Prelude.{◌≡◌, ◌+◌, ◌≤◌, length};
ghost use Rattle.judge.specs.Lists.{lent_offer};
ghost use Rattle.judge.specs.inner.Steps.{Readable, any_close, far_from, record_verdict};
ghost use Rattle.gradient.specs.Lent.{lent_ramp};

use crate::Verdict;
use difference::distance;
use gradient::Ramp;
use sampling::Sampler;
use stops::Kind;

// Whether the two colours at t differ by no more than the threshold. A difference that is not a number fails.
fn is_close(ramp: &Ramp<'_>, threshold: f32, places: &[f32], colours: &[f32], t: f32) -> bool
    ensures { result ≡ any_close (lent_ramp ramp.now) (lent_offer places colours) threshold t }
{
    let x = ramp.colour_at(t);
    let y = stops::colour_at(Kind::Linear, places, colours, t);
    distance(x, y) <= threshold
}

// The first of `count` points from `at` on that is too far, counted from there; `count` where none is.
fn first_far(
    ramp: &Ramp<'_>,
    threshold: f32,
    places: &[f32],
    colours: &[f32],
    rows: &[f32],
    at: usize,
    count: usize,
) -> usize
    requires { at + count ≤ length rows.now }
    ensures { result ≡ far_from (any_close (lent_ramp ramp.now) (lent_offer places colours) threshold) rows.now at count }
{
    let points = &rows[at..at + count];
    for (j, &t) in points.iter().enumerate() {
        if !is_close(ramp, threshold, places, colours, t) {
            return j;
        }
    }
    count
}

// The verdict on the points of a record, row by row, and then on max.
pub(crate) fn judge_points(
    ramp: &Ramp<'_>,
    threshold: f32,
    places: &[f32],
    colours: &[f32],
    max: f32,
    rows: &[f32],
    counts: &[u8],
) -> Verdict
    requires { Readable rows.now counts.now }
    ensures { result ≡ record_verdict (any_close (lent_ramp ramp.now) (lent_offer places colours) threshold) rows.now counts.now max }
{
    for (i, &count) in counts.iter().enumerate() {
        let count = usize::from(count);
        let at = i * Sampler::ROW;
        let j = first_far(ramp, threshold, places, colours, rows, at, count);
        if j < count {
            let t = rows[at + j];
            return Verdict::TooFar {
                row: i,
                index: j,
                t,
            };
        }
    }
    if !is_close(ramp, threshold, places, colours, max) {
        return Verdict::TooFar {
            row: Sampler::CELLS,
            index: 0,
            t: max,
        };
    }
    Verdict::Yes
}
