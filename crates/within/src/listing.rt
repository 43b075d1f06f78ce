// The stops of a list within a hold: each reached from the one before, and written out.
ghost use Rattle.std.specs.Prelude.{◌≡◌, ◌≤◌, length};
ghost use Rattle.gradient.specs.Ramp.{check_of, colour_of};
ghost use Rattle.sampling.specs.inner.Steps.{Coloured};
ghost use Rattle.thinning.specs.Kept.{written_of};
ghost use Rattle.linearize.specs.Desk.{listed_of};
ghost use Rattle.linearize.specs.Lent.{lent_output};
ghost use Rattle.stops.specs.declared.Checked.TheVariants.{Fine};
ghost use Rattle.within.specs.inner.Weighing.{StopsAfter, AllStops};
ghost use Rattle.gradient.specs.Lent.{lent_ramp};

use crate::block::point_after;
use crate::fair::Allowed;
use crate::steps::step_from;
use gradient::Ramp;
use linearize::Listed;
use refusals::NOT_SHOWN;
use sampling::Point;
use sampling::cells::evaluate;
use slices::zero_from;
use stops::Window;
use thinning::{Progress, emit};

// The stops after the first. A stop is compared with itself: points rise, so there is no 9.
fn thin_sites(
    ramp: &Ramp<'_>,
    offs: Allowed,
    room: usize,
    start: Progress,
    ts: &[f32; 10753],
    marks: &[u8; 10753],
    block: &mut [[f32; 4]; 1024],
    count: usize,
    end: Point,
    places: &mut [f32],
    colours: &mut [f32],
) -> Progress
    requires codes_value { (check_of (lent_ramp ramp.now) ≡ Fine) × ((count ≤ 10752) × ((start.refusal ≡ 0) × (length block.old ≡ 1024))) }
    requires coloured { Coloured (colour_of (lent_ramp ramp.now)) start.last × Coloured (colour_of (lent_ramp ramp.now)) end }
    ensures { StopsAfter (lent_ramp ramp.now) offs room start count end ts.now marks.now (lent_output places colours) result }
{
    let mut s = start;
    let mut i = 0;
    let mut w = Window { base: 0, count: 0 };
    while i <= count {
        let a = s.last;
        let step = step_from(ramp, offs, a, ts, marks, w, block, i, count, end);
        w = step.w;
        let b = point_after(
            ramp,
            ts,
            marks,
            i,
            count,
            end,
            a.pair,
            step.points,
            w,
            block,
        );
        let next = Progress {
            last: b,
            stops: s.stops,
            tried: 0,
            refusal: 0,
        };
        s = emit(room, next, b, places, colours);
        let refusal = s.refusal;
        if refusal != 0 {
            return s;
        }
        if !step.shown {
            return Progress {
                last: b,
                stops: s.stops,
                tried: 0,
                refusal: NOT_SHOWN,
            };
        }
        i += step.points;
    }
    s
}

// All stops: min is the first.
pub(crate) fn thin_all(
    ramp: &Ramp<'_>,
    offs: Allowed,
    room: usize,
    ts: &[f32; 10753],
    marks: &[u8; 10753],
    count: usize,
    min: f32,
    max: f32,
    places: &mut [f32],
    colours: &mut [f32],
) -> Progress
    requires { (check_of (lent_ramp ramp.now) ≡ Fine) × (count ≤ 10752) }
    ensures { AllStops (lent_ramp ramp.now) offs room count min max ts.now marks.now (lent_output places colours) result }
{
    let end = evaluate(ramp, max, 1);
    let first = evaluate(ramp, min, 1);
    let start = Progress {
        last: first,
        stops: 0,
        tried: 0,
        refusal: 0,
    };
    let s = emit(room, start, first, places, colours);
    let refusal = s.refusal;
    if refusal != 0 {
        return s;
    }
    let mut block = [[0.0f32; 4]; 1024];
    thin_sites(
        ramp, offs, room, s, ts, marks, &mut block, count, end, places, colours,
    )
}

// The answer; a refusal sets both outputs to zero. It has a twin in linearize: shared, it would be public there, and so a call
// that the library promises.
pub(crate) fn finish(
    s: Progress,
    evaluations: usize,
    places: &mut [f32],
    colours: &mut [f32],
) -> Listed
    ensures value { result ≡ listed_of s.refusal s.stops evaluations }
    ensures places_value { places.new ≡ written_of s.refusal places.old }
    ensures colours_value { colours.new ≡ written_of s.refusal colours.old }
{
    let refusal = s.refusal;
    if refusal != 0 {
        zero_from(places, 0);
        zero_from(colours, 0);
        return Listed::Refused(refusal);
    }
    Listed::Done {
        stops: s.stops,
        evaluations,
    }
}
