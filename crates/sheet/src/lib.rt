// A sheet: a ramp with room for more stops, its record and its list, which stay of one ramp through any number of edits.
#![tactic(auto)]

ghost use Rattle.sampling.specs.Lent.{lent_held};
ghost use Rattle.linearize.specs.Lent.{lent_output};
ghost use Rattle.sheet.specs.Room.{lent_room};
ghost use Rattle.sheet.specs.Promises.{Opens, Edits};
ghost use Rattle.gradient.specs.Lent.{lent_ramp};

use crate::listing::list;
use crate::making::make;
use crate::room::{channels_of, fits, positions_of, with_room};
use gradient::Ramp;
use refresh::editing::Edit;
use refresh::refresh;
use refusals::MISSHAPEN;
use sampling::{Sampled, sample};
use stops::Kind;

mod listing;
mod making;
mod room;

// Which list a sheet has: the one that thinning makes, or the one within a hold.
#[derive(Clone, Copy)]
pub enum ListSort {
    Thinned,
    Within(f32),
}

// What the calls answer: how many stops the ramp has, how many the list, and the evaluations; or that the list is refused,
// while ramp and record are those with the edit made; or that all is refused, and stays as it was.
#[derive(Clone, Copy)]
pub enum SheetAnswer {
    Done {
        stops: usize,
        listed: usize,
        evaluations: usize,
    },
    Unlisted {
        stops: usize,
        number: u8,
    },
    Refused(u8),
}

// Samples the ramp, which is the first `stops` stops of what is lent, or segments of a GIMP ramp, and makes its list. Refusals
// 1 to 5 leave all as it was; where the list is refused, with 7, 8 or 21, the record is the ramp's and the outputs are zero.
pub fn open(
    ramp: &Ramp<'_>,
    stops: usize,
    threshold: f32,
    sort: ListSort,
    rows: &mut [f32],
    counts: &mut [u8],
    marks: &mut [u32],
    places: &mut [f32],
    colours: &mut [f32],
) -> SheetAnswer
    ensures { Opens (lent_ramp ramp.now) stops threshold sort (lent_held rows counts marks) (lent_output places colours) result }
{
    if !fits(ramp.kind, stops, ramp.positions.len(), ramp.channels.len()) {
        return SheetAnswer::Refused(MISSHAPEN);
    }
    let n = positions_of(ramp.kind, stops);
    let m = channels_of(ramp.kind, stops);
    let own = Ramp {
        positions: &ramp.positions[..n],
        channels: &ramp.channels[..m],
        codes: ramp.codes,
        kind: ramp.kind,
    };
    match sample(&own, threshold, rows, counts, marks) {
        Sampled::Refused(number) => SheetAnswer::Refused(number),
        Sampled::Done(spent) => list(
            &own, threshold, sort, rows, counts, marks, places, colours, stops, spent,
        ),
    }
}

// Makes an edit in the lent ramp, refreshes the record and makes the list anew. Refusals 1 to 6 and 20 leave all as it was; 6
// is also for an addition for which there is no room. Where the list is refused, with 7, 8, 9 or 21, ramp and record are those
// with the edit made, and the outputs are zero.
pub fn edit(
    kind: Kind,
    positions: &mut [f32],
    channels: &mut [f32],
    codes: &[u8],
    stops: usize,
    edit: Edit,
    threshold: f32,
    sort: ListSort,
    rows: &mut [f32],
    counts: &mut [u8],
    marks: &mut [u32],
    places: &mut [f32],
    colours: &mut [f32],
) -> SheetAnswer
    ensures { Edits (lent_room kind positions channels codes) stops edit threshold sort (lent_held rows counts marks) (lent_output places colours) result }
{
    if !fits(kind, stops, positions.len(), channels.len()) {
        return SheetAnswer::Refused(MISSHAPEN);
    }
    let n = positions_of(kind, stops);
    let m = channels_of(kind, stops);
    let made = with_room(edit, stops, positions.len(), channels.len());
    let ramp = Ramp {
        positions: &positions[..n],
        channels: &channels[..m],
        codes,
        kind,
    };
    match refresh(&ramp, made, threshold, rows, counts, marks) {
        Sampled::Refused(number) => SheetAnswer::Refused(number),
        Sampled::Done(spent) => {
            let left = make(positions, channels, stops, made);
            let m = 4 * left;
            let ramp = Ramp {
                positions: &positions[..left],
                channels: &channels[..m],
                codes,
                kind,
            };
            list(
                &ramp, threshold, sort, rows, counts, marks, places, colours, left, spent,
            )
        }
    }
}
