// The points at which a list is weighed: a record's points, the lent positions and the f32 on both sides of each, in one
// list that rises.
#![tactic(auto)]

ghost use Rattle.std.specs.Prelude.{◌≡◌, ◌||◌, ◌≤◌, ltb, length};
ghost use Rattle.places.specs.Places.{Ready};
ghost use Rattle.sampling.specs.Constants.{cells};
ghost use Rattle.weighed.specs.Points.{inside};
ghost use Rattle.weighed.specs.Gathered.{weighable, merged_of, gathered, Gathers};
ghost use Rattle.weighed.specs.inner.Joining.{MayMerge, MergesOn};

use neighbours::{Next, Taken, next_own};
use places::{RowPlace, next_place, point_at};
use records::check_counts;
use refusals::MOST_STOPS;
use sampling::Sampler;
use stops::Checked;

mod neighbours;

// The record's points, max, and three for each position.
pub const MOST: usize = 10753;

// What a point is: the record's, beside a lent position, or a lent position.
pub const SAMPLED: u8 = 0;

pub const BESIDE: u8 = 1;

pub const LENT: u8 = 2;

// What the merge has come to: how many points stand in the arrays, the last of them, and the next of both lists.
#[derive(Clone, Copy)]
struct Merge {
    count: usize,
    last: f32,
    place: RowPlace,
    next: Option<Next>,
}

fn is_inside(last: f32, t: f32, max: f32) -> bool
    ensures { result ≡ inside max last t }
{
    (last < t) & (t < max)
}

// One point is taken or passed over.
fn merge_step(
    positions: &[f32],
    rows: &[f32],
    counts: &[u8],
    max: f32,
    s: Merge,
    ts: &mut [f32; 10753],
    marks: &mut [u8; 10753],
) -> Merge
    requires { MayMerge positions.now rows.now counts.now max 10753 s }
    ensures { MergesOn positions.now rows.now counts.now max ts.old marks.old s ts.new marks.new result }
{
    let place = s.place;
    let next = s.next;
    let last = s.last;
    let n = s.count;
    let t = point_at(rows, max, place);
    if (place.row < Sampler::CELLS) & !is_inside(last, t, max) {
        return Merge {
            count: n,
            last,
            place: next_place(counts, place),
            next,
        };
    }
    if let Some(own) = next {
        let u = own.t;
        if !is_inside(last, u, max) {
            return Merge {
                count: n,
                last,
                place,
                next: next_own(positions, own.with),
            };
        }
        if !(t < u) {
            ts[n] = u;
            marks[n] = own.mark;
            return Merge {
                count: n + 1,
                last: u,
                place,
                next: next_own(positions, own.with),
            };
        }
    }
    ts[n] = t;
    marks[n] = SAMPLED;
    Merge {
        count: n + 1,
        last: t,
        place: next_place(counts, place),
        next,
    }
}

fn goes_on(row: usize, some: bool) -> bool
    ensures { result ≡ (ltb row cells || some) }
{
    row < Sampler::CELLS || some
}

// All of them, of a record that may be thinned.
fn merge_all(
    positions: &[f32],
    rows: &[f32],
    counts: &[u8],
    min: f32,
    max: f32,
    ts: &mut [f32; 10753],
    marks: &mut [u8; 10753],
) -> usize
    requires { Ready rows.now counts.now × (length positions.now ≤ 2048) }
    ensures { Gathers (merged_of positions.now rows.now counts.now min max) ts.old marks.old ts.new marks.new result }
{
    let none = Taken {
        below: 0,
        lent: 0,
        above: 0,
    };
    let mut s = Merge {
        count: 0,
        last: min,
        place: RowPlace { row: 0, index: 0 },
        next: next_own(positions, none),
    };
    while goes_on(s.place.row, s.next.is_some()) {
        s = merge_step(positions, rows, counts, max, s, ts, marks);
    }
    s.count
}

// No more positions than a ramp has, and a record of the right lengths and counts.
#[tactic(auto, unfolding(crate::specs::Gathered::weighable, refusals::specs::Limits::most_stops, records::specs::Fitness::counts_check))]
fn may_gather(positions: usize, rows: usize, counts: &[u8]) -> bool
    ensures { result ≡ weighable positions rows counts.now }
{
    positions <= MOST_STOPS
        && rows == Sampler::CELLS * Sampler::ROW
        && counts.len() == Sampler::CELLS
        && matches!(check_counts(counts), Checked::Fine)
}

// The points strictly between min and max, and what each is, from the start of two arrays on; and how many there are. Of a
// record that may not be thinned, or of more positions than a ramp has, there are none.
pub fn gather(
    positions: &[f32],
    rows: &[f32],
    counts: &[u8],
    min: f32,
    max: f32,
    ts: &mut [f32; 10753],
    marks: &mut [u8; 10753],
) -> usize
    ensures { Gathers (gathered positions.now rows.now counts.now min max) ts.old marks.old ts.new marks.new result }
{
    if !may_gather(positions.len(), rows.len(), counts) {
        return 0;
    }
    merge_all(positions, rows, counts, min, max, ts, marks)
}
