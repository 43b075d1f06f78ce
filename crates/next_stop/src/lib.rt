// One stop at a time: a call is lent the ramp, the record and a place, and hands out the next stop of the list with the place to
// go on from. The place is all that a caller keeps between calls.
#![tactic(auto)]

ghost use Rattle.std.specs.Prelude.{◌≡◌, true, ◌+◌, ◌*◌, ◌≤◌};
ghost use Rattle.stops.specs.declared.Checked.TheVariants.{Fine};
ghost use Rattle.gradient.specs.Ramp.{check_of, colour_of};
ghost use Rattle.difference.specs.Difference.{exceeds};
ghost use Rattle.sampling.specs.Constants.{record_length};
ghost use Rattle.sampling.specs.Lent.{shared_held};
ghost use Rattle.places.specs.Places.{Ready};
ghost use Rattle.thinning.specs.Kept.{stop_refusal};
ghost use Rattle.next_stop.specs.Step.{is_within, placed_check, list_place_of, stop_with, handed_by, handed_from, HandsOut};
ghost use Rattle.gradient.specs.Lent.{lent_ramp};

use crate::walk::{find, lone_point};
use blend::Stop;
use gradient::Ramp;
use places::{RowPlace, count_at, point_at};
use records::check_thin;
use refusals::{BAD_RECORD, OTHER_THRESHOLD};
use sampling::{Point, Sampler, cutoff_of};
use stops::Checked;
use thinning::stop_refusal;

mod walk;

// Where a caller is in a list: before its first stop, after the stop at a row and an index of the record, or past its end.
#[derive(Clone, Copy)]
pub enum ListPlace {
    Start,
    After { row: usize, index: usize },
    Ended,
}

// What a step tells: a stop, that nothing more comes, or the number of the refusal.
#[derive(Clone, Copy)]
pub enum Told {
    Stop(Stop),
    Ended,
    Refused(u8),
}

// What a step hands out: what it tells, with how many evaluations, and the place to go on from.
#[derive(Clone, Copy)]
pub struct Handed {
    pub told: Told,
    pub evaluations: usize,
    pub place: ListPlace,
}

// The next point kept and its place, the number that stood before it, and how many points were weighed.
#[derive(Clone, Copy)]
pub(crate) struct Found {
    pub(crate) point: Point,
    pub(crate) last: f32,
    pub(crate) place: RowPlace,
    pub(crate) tried: usize,
}

// A place of the record: it has that row, and the row has that point. Start and end are none, and always there.
#[tactic(auto, unfolding(crate::specs::Step::is_within))]
fn is_within(counts: &[u8], place: ListPlace) -> bool
    ensures { result ≡ is_within counts.now place }
{
    match place {
        ListPlace::Start | ListPlace::Ended => true,
        ListPlace::After { row, index } => row < Sampler::CELLS && index < count_at(counts, row),
    }
}

// The record's refusal, with 5 of a place outside after the other fives and before 20.
#[tactic(auto, unfolding(crate::specs::Step::placed_check))]
fn placed_check(within: bool, checked: Checked) -> Checked
    ensures { result ≡ placed_check within checked }
{
    let comes_later = matches!(checked, Checked::Fine | Checked::Refused(OTHER_THRESHOLD));
    if !within && comes_later {
        Checked::Refused(BAD_RECORD)
    } else {
        checked
    }
}

// The place after the stop at a place: max is the last.
#[tactic(auto, unfolding(crate::specs::Step::list_place_of))]
fn place_of(at: RowPlace) -> ListPlace
    ensures { result ≡ list_place_of at }
{
    if at.row < Sampler::CELLS {
        ListPlace::After {
            row: at.row,
            index: at.index,
        }
    } else {
        ListPlace::Ended
    }
}

// The stop at p, after the one at `last`, is handed out or refused; there is room for one stop, and so no 7.
fn hand_out(last: f32, p: Point, tried: usize, at: RowPlace) -> Handed
    requires { tried ≤ record_length }
    ensures { result ≡ handed_by (stop_refusal 1 0 last p.t p.colour) (stop_with p.t p.colour) (3 * tried + 1) (list_place_of at) }
{
    let refusal = stop_refusal(1, 0, last, p.t, p.colour);
    if refusal != 0 {
        return Handed {
            told: Told::Refused(refusal),
            evaluations: 0,
            place: ListPlace::Ended,
        };
    }
    let colour = p.colour;
    let stop = Stop {
        position: p.t,
        colour,
    };
    Handed {
        told: Told::Stop(stop),
        evaluations: 3 * tried + 1,
        place: place_of(at),
    }
}

// A step whose check is passed.
fn step_from(
    ramp: &Ramp<'_>,
    cutoff: f32,
    max: f32,
    rows: &[f32],
    counts: &[u8],
    place: ListPlace,
) -> Handed
    requires ready { Ready rows.now counts.now × (check_of (lent_ramp ramp.now) ≡ Fine) }
    requires place_value { is_within counts.now place ≡ true }
    ensures { result ≡ handed_from (colour_of (lent_ramp ramp.now)) (exceeds cutoff) rows.now counts.now max place }
{
    match place {
        ListPlace::Ended => Handed {
            told: Told::Ended,
            evaluations: 0,
            place: ListPlace::Ended,
        },
        ListPlace::Start => {
            let at = RowPlace { row: 0, index: 0 };
            let p = lone_point(ramp, point_at(rows, max, at), 1);
            hand_out(p.t, p, 0, at)
        }
        ListPlace::After { row, index } => {
            let at = RowPlace { row, index };
            let f = find(ramp, cutoff, max, rows, counts, at);
            let p = f.point;
            let next = f.place;
            hand_out(f.last, p, f.tried, next)
        }
    }
}

// Hands out the next stop after a place. Nothing lent is written; refusals 1 to 5 and 20 leave the place as it was, after 8 and 9
// nothing more comes.
pub fn next_stop(
    ramp: &Ramp<'_>,
    threshold: f32,
    rows: &[f32],
    counts: &[u8],
    marks: &[u32],
    place: ListPlace,
) -> Handed
    ensures { HandsOut (lent_ramp ramp.now) threshold (shared_held rows counts marks).entry place result }
{
    let checked = check_thin(ramp, threshold, rows, counts, marks);
    match placed_check(is_within(counts, place), checked) {
        Checked::Refused(n) => Handed {
            told: Told::Refused(n),
            evaluations: 0,
            place,
        },
        Checked::Fine => {
            let cutoff = cutoff_of(threshold);
            let max = ramp.max();
            step_from(ramp, cutoff, max, rows, counts, place)
        }
    }
}
