// Thinning: the points of a record one after the other, each kept or not, and the stops written out.
ghost use Rattle.std.specs.Prelude.{◌≡◌, ◌+◌, ◌*◌, ◌≤◌, length};
ghost use Rattle.gradient.specs.Ramp.{check_of, colour_of};
ghost use Rattle.sampling.specs.Constants.{record_length};
ghost use Rattle.places.specs.Places.{Ready};
ghost use Rattle.thinning.specs.Kept.{written_of};
ghost use Rattle.linearize.specs.Desk.{listed_of};
ghost use Rattle.stops.specs.declared.Checked.TheVariants.{Fine};
ghost use Rattle.linearize.specs.inner.Steps.{Started, points, MakesList, ThinsAll, ThinsRest};
ghost use Rattle.linearize.specs.Lent.{lent_output};
ghost use Rattle.gradient.specs.Lent.{lent_ramp};

use crate::Listed;
use gradient::Ramp;
use places::{RowPlace, next_place, point_at};
use sampling::Sampler;
use sampling::cells::{evaluate, evaluate_along};
use slices::zero_from;
use thinning::{Progress, emit, room_of, step};

// Thins the points after the first, from place to place; the last is always kept. The pair of the last point goes along, drawn
// where the ramp is Catmull-Rom.
fn thin_points(
    ramp: &Ramp<'_>,
    cutoff: f32,
    max: f32,
    room: usize,
    start: Progress,
    rows: &[f32],
    counts: &[u8],
    places: &mut [f32],
    colours: &mut [f32],
) -> Progress
    requires ready { Ready rows.now counts.now × Started (colour_of (lent_ramp ramp.now)) room start }
    requires codes_value { check_of (lent_ramp ramp.now) ≡ Fine }
    ensures { ThinsRest (lent_ramp ramp.now) cutoff room (points rows counts max) start (lent_output places colours) result }
{
    let mut drawn = [[0.0f32; 4]; 7];
    let mut s = start;
    let mut place = next_place(counts, RowPlace { row: 0, index: 0 });
    let mut x = evaluate_along(ramp, point_at(rows, max, place), 0, &mut drawn);
    while place.row < Sampler::CELLS {
        let after = next_place(counts, place);
        let next = evaluate_along(ramp, point_at(rows, max, after), x.pair, &mut drawn);
        s = step(cutoff, room, s, x, next, places, colours);
        let refusal = s.refusal;
        if refusal != 0 {
            return s;
        }
        x = next;
        place = after;
    }
    emit(room, s, x, places, colours)
}

// Thins a record's points: a stop for the first, and the others weighed.
fn thin_all(
    ramp: &Ramp<'_>,
    cutoff: f32,
    max: f32,
    room: usize,
    rows: &[f32],
    counts: &[u8],
    places: &mut [f32],
    colours: &mut [f32],
) -> Progress
    requires { Ready rows.now counts.now × (check_of (lent_ramp ramp.now) ≡ Fine) }
    ensures { ThinsAll (lent_ramp ramp.now) cutoff room (points rows counts max) (lent_output places colours) result }
{
    let first = evaluate(ramp, rows[0], 1);
    let start = Progress {
        last: first,
        stops: 0,
        tried: 0,
        refusal: 0,
    };
    let s = emit(room, start, first, places, colours);
    let refusal = s.refusal;
    if refusal != 0 {
        return s;
    }
    thin_points(ramp, cutoff, max, room, s, rows, counts, places, colours)
}

// The answer; a refusal sets both outputs to zero.
fn finish(s: Progress, places: &mut [f32], colours: &mut [f32]) -> Listed
    requires { (s.tried ≤ record_length) × (s.stops ≤ length places.old) }
    ensures value { result ≡ listed_of s.refusal s.stops (3 * s.tried + s.stops) }
    ensures places_value { places.new ≡ written_of s.refusal places.old }
    ensures colours_value { colours.new ≡ written_of s.refusal colours.old }
{
    let refusal = s.refusal;
    if refusal != 0 {
        zero_from(places, 0);
        zero_from(colours, 0);
        return Listed::Refused(refusal);
    }
    Listed::Done {
        stops: s.stops,
        evaluations: 3 * s.tried + s.stops,
    }
}

// Thins a record's points, and writes the stops.
pub(crate) fn thin_record(
    ramp: &Ramp<'_>,
    cutoff: f32,
    max: f32,
    rows: &[f32],
    counts: &[u8],
    places: &mut [f32],
    colours: &mut [f32],
) -> Listed
    requires { Ready rows.now counts.now × (check_of (lent_ramp ramp.now) ≡ Fine) }
    ensures { MakesList (lent_ramp ramp.now) cutoff (points rows counts max) (lent_output places colours) result }
{
    let room = room_of(places.len(), colours.len());
    let s = thin_all(ramp, cutoff, max, room, rows, counts, places, colours);
    finish(s, places, colours)
}
