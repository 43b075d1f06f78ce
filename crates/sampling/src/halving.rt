// Halving a stretch where its colours bend, and the row of a cell.
ghost use Rattle.std.specs.Prelude.{◌≡◌, true, ◌+◌, ◌≤◌, ◌^◌, length};
ghost use Rattle.sampling.specs.Constants.{depth, row_length};
ghost use Rattle.sampling.specs.inner.Steps.{Between, DrawnBetween, task_far, HalvesTo, RowIs};
ghost use Rattle.stops.specs.Segments.{is_catmull_rom};
ghost use Rattle.gradient.specs.Lent.{lent_ramp};
ghost use Rattle.gradient.specs.Ramp.{colour_of};

use crate::cells::evaluate;
use crate::drawn::{curve_of, redraw};
use crate::{Halved, Point, Sampler, Task};
use blend::utils::interpolate_linear;
use difference::stands_out;
use gradient::Ramp;
use slices::zero_from;
use stops::{near, segments};

// Writes the midpoints kept between p and q into the row from `at` on, in order, with `left` halvings left.
fn halve(
    ramp: &Ramp<'_>,
    task: Task,
    row: &mut [f32],
    at: usize,
    p: Point,
    q: Point,
    left: usize,
) -> Halved
    requires left_in_bounds { at + 2 ^ left ≤ length row.old + 1 }
    requires between { Between (lent_ramp ramp.now) p q }
    ensures { HalvesTo (colour_of (lent_ramp ramp.now)) (task_far task) left p.t q.t at row.old row.new result }
{
    if left == 0 {
        return Halved { at, tries: 0 };
    }
    let middle = (p.t + q.t) / 2.0;
    let m = evaluate(ramp, middle, p.pair);
    let foretold = interpolate_linear(p.colour, q.colour, 0.5);
    if !stands_out(task.cutoff, m.colour, foretold) {
        return Halved { at, tries: 1 };
    }
    let n = left - 1;
    let a = halve(ramp, task, row, at, p, m, n);
    let k = a.at;
    row[k] = m.t;
    let b = halve(ramp, task, row, k + 1, m, q, n);
    Halved {
        at: b.at,
        tries: a.tries + b.tries + 1,
    }
}

// The same of a Catmull-Rom ramp, with the pairs of p and q in hand, drawn.
// Its own function: as one with `halve`, over a trait for what goes along, a Catmull-Rom flattening took 1.026 to 1.028 of the time.
fn halve_drawn(
    ramp: &Ramp<'_>,
    task: Task,
    row: &mut [f32],
    at: usize,
    p: Point,
    q: Point,
    left: usize,
    s: &[[f32; 4]; 7],
    u: &[[f32; 4]; 7],
) -> Halved
    requires left_in_bounds { (at + 2 ^ left ≤ length row.old + 1) × (is_catmull_rom ramp.now.kind ≡ true) }
    requires drawn_between { DrawnBetween (lent_ramp ramp.now) p q s.now u.now }
    ensures { HalvesTo (colour_of (lent_ramp ramp.now)) (task_far task) left p.t q.t at row.old row.new result }
{
    if left == 0 {
        return Halved { at, tries: 0 };
    }
    let t = (p.t + q.t) / 2.0;
    let n = ramp.positions.len();
    let place = near::find_place(ramp.positions, t, p.pair);
    let pair = near::pair_or(place, 0);
    let own = redraw(ramp.channels, n, p.pair, s, q.pair, u, pair);
    let colour = near::segment_colour(ramp.positions, ramp.channels, curve_of(&own), t, place);
    let m = Point { colour, t, pair };
    let foretold = interpolate_linear(p.colour, q.colour, 0.5);
    if !stands_out(task.cutoff, colour, foretold) {
        return Halved { at, tries: 1 };
    }
    let less = left - 1;
    let a = halve_drawn(ramp, task, row, at, p, m, less, s, &own);
    let k = a.at;
    row[k] = t;
    let b = halve_drawn(ramp, task, row, k + 1, m, q, less, &own, u);
    Halved {
        at: b.at,
        tries: a.tries + b.tries + 1,
    }
}

// Writes the midpoints kept between the ends of a cell into its row, after the first.
fn halve_cell(
    ramp: &Ramp<'_>,
    task: Task,
    row: &mut [f32],
    p: Point,
    q: Point,
    s: &[[f32; 4]; 7],
    u: &[[f32; 4]; 7],
) -> Halved
    requires row_len { length row.old ≡ row_length }
    requires drawn_between { DrawnBetween (lent_ramp ramp.now) p q s.now u.now }
    ensures { HalvesTo (colour_of (lent_ramp ramp.now)) (task_far task) depth p.t q.t 1 row.old row.new result }
{
    let depth = Sampler::DEPTH;
    if segments::is_catmull_rom(ramp.kind) {
        return halve_drawn(ramp, task, row, 1, p, q, depth, s, u);
    }
    halve(ramp, task, row, 1, p, q, depth)
}

// Writes the row of the cell from p to q, whose pairs are drawn where the ramp is Catmull-Rom.
pub(crate) fn row_into(
    ramp: &Ramp<'_>,
    task: Task,
    row: &mut [f32],
    p: Point,
    q: Point,
    s: &[[f32; 4]; 7],
    u: &[[f32; 4]; 7],
) -> Halved
    requires row_len { length row.old ≡ row_length }
    requires drawn_between { DrawnBetween (lent_ramp ramp.now) p q s.now u.now }
    ensures { RowIs (colour_of (lent_ramp ramp.now)) (task_far task) p.t q.t row.new result }
{
    row[0] = p.t;
    let h = halve_cell(ramp, task, row, p, q, s, u);
    let at = h.at;
    zero_from(row, at);
    h
}
