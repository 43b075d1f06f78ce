// From a place to the next point kept.
ghost use Rattle.std.specs.Prelude.{◌≡◌, ◌<◌};
ghost use Rattle.gradient.specs.Ramp.{check_of, colour_of};
ghost use Rattle.sampling.specs.Constants.{cells};
ghost use Rattle.sampling.specs.inner.Steps.{PointAt};
ghost use Rattle.difference.specs.Difference.{exceeds};
ghost use Rattle.stops.specs.declared.Checked.TheVariants.{Fine};
ghost use Rattle.places.specs.Places.{Ready, InRecord};
ghost use Rattle.next_stop.specs.inner.Steps.{FindsNext};
ghost use Rattle.gradient.specs.Lent.{lent_ramp};

use crate::Found;
use gradient::Ramp;
use places::{RowPlace, next_place, point_at};
use sampling::cells::evaluate;
use sampling::{Point, Sampler};
use thinning::weigh;

// The point at t, tried in the pair `guess` first. A step carries no pair that is drawn: it would be drawn anew each time.
pub(crate) fn lone_point(ramp: &Ramp<'_>, t: f32, guess: usize) -> Point
    requires { check_of (lent_ramp ramp.now) ≡ Fine }
    ensures { PointAt (colour_of (lent_ramp ramp.now)) t result }
{
    evaluate(ramp, t, guess)
}

// The first point kept after the one at a place. It starts from there, and looks at no point before it.
pub(crate) fn find(
    ramp: &Ramp<'_>,
    cutoff: f32,
    max: f32,
    rows: &[f32],
    counts: &[u8],
    from: RowPlace,
) -> Found
    requires ready { Ready rows.now counts.now × (InRecord counts.now from × (from.row < cells)) }
    requires codes_value { check_of (lent_ramp ramp.now) ≡ Fine }
    ensures { FindsNext (colour_of (lent_ramp ramp.now)) (exceeds cutoff) rows.now counts.now max from result }
{
    let t = point_at(rows, max, from);
    let last = lone_point(ramp, t, 1);
    let mut place = next_place(counts, from);
    let second = point_at(rows, max, place);
    let mut x = lone_point(ramp, second, last.pair);
    let mut tried = 0;
    while place.row < Sampler::CELLS {
        let after = next_place(counts, place);
        let later = point_at(rows, max, after);
        let next = lone_point(ramp, later, x.pair);
        let w = weigh(cutoff, last, x, next);
        tried += w.tried;
        if w.kept {
            return Found {
                point: x,
                last: last.t,
                place,
                tried,
            };
        }
        x = next;
        place = after;
    }
    Found {
        point: x,
        last: last.t,
        place,
        tried,
    }
}
