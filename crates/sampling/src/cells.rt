// A cell: its ends, and its row, kept or sampled anew.
ghost use Rattle.std.specs.Prelude.{◌≡◌, ◌≤◌, ◌<◌, length};
ghost use Rattle.sampling.specs.Constants.{cells, record_length};
ghost use Rattle.sampling.specs.Cells.{end_of};
ghost use Rattle.sampling.specs.Segments.{placed_point, point_near, Draws, GoesAlong};
ghost use Rattle.sampling.specs.inner.Steps.{Carrying, Reaches, task_end, task_far, PointDrawn, CellCarried};
ghost use Rattle.sampling.specs.Lent.{lent_body};
ghost use Rattle.stops.specs.declared.Checked.TheVariants.{Fine};
ghost use Rattle.gradient.specs.Ramp.{check_of};
ghost use Rattle.gradient.specs.Lent.{lent_ramp};
ghost use Rattle.gradient.specs.Ramp.{colour_of};

use crate::drawn::{curve_of, follow};
use crate::halving::row_into;
use crate::pairs::pair_at;
use crate::{Carried, Point, Sampler, Task};
use gradient::{Ramp, gimp};
use stops::{BLACK, Kind, Place, near, segments};

// The point at t, whose place among the stops is known.
pub fn placed(kind: Kind, positions: &[f32], channels: &[f32], t: f32, place: Place) -> Point
    ensures { result ≡ placed_point kind positions.now channels.now t place }
{
    match place {
        Place::End(i) => Point {
            colour: stops::colour(channels, i),
            t,
            pair: 0,
        },
        Place::Nowhere => Point {
            colour: BLACK,
            t,
            pair: 0,
        },
        Place::Between(k) => Point {
            colour: pair_at(kind, positions, channels, k, t),
            t,
            pair: k,
        },
    }
}

// The point at t, tried in the pair `guess` before its place is searched for.
pub fn evaluate(ramp: &Ramp<'_>, t: f32, guess: usize) -> Point
    ensures { result ≡ point_near (lent_ramp ramp.now) t guess }
{
    if gradient::is_gimp(ramp.kind) {
        let colour = gimp::colour_at(ramp.positions, ramp.channels, ramp.codes, t);
        return Point { colour, t, pair: 0 };
    }
    let place = near::find_place(ramp.positions, t, guess);
    told_at(
        placed(ramp.kind, ramp.positions, ramp.channels, t, place),
        t,
    )
}

// A point, its t told anew. Handed on as it came, t is read with the four bytes beside it as eight, which waits for the store of
// four that was just made: a tenth of a thinning.
fn told_at(p: Point, t: f32) -> Point
    requires { p.t ≡ t }
    ensures { result ≡ p }
{
    let colour = p.colour;
    Point {
        colour,
        t,
        pair: p.pair,
    }
}

// The point of a Catmull-Rom ramp at t, whose place is known. The pair `guess` is in hand, drawn, and becomes that of the place.
pub fn drawn_at(
    positions: &[f32],
    channels: &[f32],
    t: f32,
    place: Place,
    guess: usize,
    drawn: &mut [[f32; 4]; 7],
) -> Point
    ensures { Draws positions.now channels.now t place guess drawn.old drawn.new result }
{
    let pair = near::pair_or(place, 0);
    follow(channels, positions.len(), guess, pair, drawn);
    let colour = near::segment_colour(positions, channels, curve_of(drawn), t, place);
    Point { colour, t, pair }
}

// The point at t, tried in the pair `guess` first, which goes along where the ramp is Catmull-Rom: it is in hand, drawn, and
// becomes that of the point.
pub fn evaluate_along(ramp: &Ramp<'_>, t: f32, guess: usize, drawn: &mut [[f32; 4]; 7]) -> Point
    ensures { GoesAlong (lent_ramp ramp.now) t guess drawn.old drawn.new result }
{
    if !segments::is_catmull_rom(ramp.kind) {
        return told_at(evaluate(ramp, t, guess), t);
    }
    let place = near::find_place(ramp.positions, t, guess);
    told_at(
        drawn_at(ramp.positions, ramp.channels, t, place, guess, drawn),
        t,
    )
}

// The end between cell i - 1 and cell i; past the last cell it is max.
#[tactic(auto, unfolding(crate::specs::Cells::end_of, crate::specs::Cells::edge_of))]
pub fn edge(min: f32, max: f32, i: usize) -> f32
    ensures { result ≡ end_of min max i }
{
    if i > Sampler::CELLS {
        max
    } else {
        min + (max - min) * (float::from_whole(i as u64) / float::from_whole(Sampler::CELLS as u64))
    }
}

// The point between cell i - 1 and cell i, tried in the pair `guess` first, which goes along.
fn end_at(ramp: &Ramp<'_>, task: Task, i: usize, guess: usize, drawn: &mut [[f32; 4]; 7]) -> Point
    requires i_le_cells { (i ≤ cells) × (check_of (lent_ramp ramp.now) ≡ Fine) }
    requires carrying { Carrying (lent_ramp ramp.now) guess drawn.old }
    ensures { PointDrawn (lent_ramp ramp.now) (colour_of (lent_ramp ramp.now)) (task_end task i) drawn.new result }
{
    let t = edge(task.min, task.max, i);
    evaluate_along(ramp, t, guess, drawn)
}

// The point where cell i starts: the one in hand, if it is known.
fn left_end(
    ramp: &Ramp<'_>,
    task: Task,
    i: usize,
    carried: Carried,
    drawn: &mut [[f32; 4]; 7],
) -> Point
    requires i_le_cells { i ≤ cells }
    requires reaches { Reaches (lent_ramp ramp.now) drawn.old task.min task.max i carried }
    ensures { PointDrawn (lent_ramp ramp.now) (colour_of (lent_ramp ramp.now)) (task_end task i) drawn.new result }
{
    let point = carried.point;
    if carried.known {
        return point;
    }
    end_at(ramp, task, i, point.pair, drawn)
}

// Cell i: kept, or sampled anew from the point carried to it, whose pair is in hand, drawn.
pub(crate) fn resample_cell(
    ramp: &Ramp<'_>,
    task: Task,
    kept: bool,
    i: usize,
    carried: Carried,
    rows: &mut [f32],
    counts: &mut [u8],
    drawn: &mut [[f32; 4]; 7],
) -> Carried
    requires i_lt_cells { (i < cells) × ((length rows.old ≡ record_length) × (length counts.old ≡ cells)) }
    requires reaches { Reaches (lent_ramp ramp.now) drawn.old task.min task.max i carried }
    ensures cell_carried { CellCarried (colour_of (lent_ramp ramp.now)) (task_far task) kept task.min task.max i (lent_body rows counts) carried result }
    ensures carrying { Carrying (lent_ramp ramp.now) result.point.pair drawn.new }
{
    if kept {
        let point = carried.point;
        return Carried {
            point,
            known: false,
            tries: carried.tries,
        };
    }
    let p = left_end(ramp, task, i, carried, drawn);
    let first = *drawn;
    let q = end_at(ramp, task, i + 1, p.pair, drawn);
    let a = i * Sampler::ROW;
    let e = a + Sampler::ROW;
    let row = &mut rows[a..e];
    let h = row_into(ramp, task, row, p, q, &first, drawn);
    counts[i] = h.at as u8;
    Carried {
        point: q,
        known: true,
        tries: carried.tries + h.tries,
    }
}
