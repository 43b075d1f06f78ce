// Lists that are within a hold of their ramp at its own positions, and within the threshold at a record's points.
#![tactic(auto)]

ghost use Rattle.std.specs.Prelude.{◌≡◌};
ghost use Rattle.gradient.specs.Ramp.{check_of};
ghost use Rattle.places.specs.Places.{Ready};
ghost use Rattle.sampling.specs.Lent.{lent_held, shared_held};
ghost use Rattle.stops.specs.declared.Checked.TheVariants.{Fine};
ghost use Rattle.linearize.specs.Lent.{lent_output};
ghost use Rattle.within.specs.Lists.{hold_of};
ghost use Rattle.within.specs.inner.Weighing.{MakesOf};
ghost use Rattle.within.specs.Promises.{ThinsWithin, FlattensWithin};
ghost use Rattle.gradient.specs.Lent.{lent_ramp};

use crate::fair::Allowed;
use gradient::Ramp;
use linearize::{Listed, after};
use records::check_thin;
use sampling::{Sampled, Sampler, cutoff_of, sample};
use stops::Checked;
use thinning::room_of;
use weighed::{MOST, gather};

mod asking;
mod block;
mod fair;
mod lent;
mod listing;
mod steps;

// The stops that a list may have: a judge takes no more.
const MOST_LISTED: usize = 4609;

// The hold in force: not finite it is the least threshold, else it is taken into that .. the threshold in force.
#[tactic(auto, using(crate::proofs::Limits::threshold_least), unfolding(crate::specs::Lists::hold_of))]
pub fn hold_of(asked: f32, threshold: f32) -> f32
    ensures { result ≡ hold_of threshold asked }
{
    if float::is_finite(asked) {
        let sampler = Sampler::new(threshold);
        asked.clamp(Sampler::LEAST, sampler.threshold)
    } else {
        Sampler::LEAST
    }
}

// The list of a record's points. The two arrays are 54 KB, the block of colours 16 KB.
fn list_within(
    ramp: &Ramp<'_>,
    threshold: f32,
    hold: f32,
    rows: &[f32],
    counts: &[u8],
    places: &mut [f32],
    colours: &mut [f32],
) -> Listed
    requires { Ready rows.now counts.now × (check_of (lent_ramp ramp.now) ≡ Fine) }
    ensures { MakesOf (lent_ramp ramp.now) threshold hold rows.now counts.now (lent_output places colours) result }
{
    let offs = Allowed {
        threshold: cutoff_of(threshold),
        hold: cutoff_of(hold_of(hold, threshold)),
    };
    let min = ramp.min();
    let max = ramp.max();
    let mut ts = [0.0f32; MOST];
    let mut whats = [0u8; MOST];
    let count = gather(ramp.positions, rows, counts, min, max, &mut ts, &mut whats);
    let room = room_of(places.len(), colours.len()).min(MOST_LISTED);
    let s = listing::thin_all(
        ramp, offs, room, &ts, &whats, count, min, max, places, colours,
    );
    listing::finish(s, count + 2, places, colours)
}

// Thins a record to a list within a hold. Refusals 1 to 5 and 20 leave the outputs as they were; 7, 8 and 21 set them to zero.
pub fn thin_within(
    ramp: &Ramp<'_>,
    threshold: f32,
    hold: f32,
    rows: &[f32],
    counts: &[u8],
    marks: &[u32],
    places: &mut [f32],
    colours: &mut [f32],
) -> Listed
    ensures { ThinsWithin (lent_ramp ramp.now) threshold hold (shared_held rows counts marks).entry (lent_output places colours) result }
{
    match check_thin(ramp, threshold, rows, counts, marks) {
        Checked::Refused(n) => Listed::Refused(n),
        Checked::Fine => list_within(ramp, threshold, hold, rows, counts, places, colours),
    }
}

// A fresh sampling into the lent record, then the list within a hold of its points. Refusals 1 to 5 leave all as it was; after 7,
// 8 and 21 the record is the fresh one and the outputs are zero.
pub fn flatten_within(
    ramp: &Ramp<'_>,
    threshold: f32,
    hold: f32,
    rows: &mut [f32],
    counts: &mut [u8],
    marks: &mut [u32],
    places: &mut [f32],
    colours: &mut [f32],
) -> Listed
    ensures { FlattensWithin (lent_ramp ramp.now) threshold hold (lent_held rows counts marks) (lent_output places colours) result }
{
    match sample(ramp, threshold, rows, counts, marks) {
        Sampled::Refused(n) => Listed::Refused(n),
        Sampled::Done(n) => {
            let made = list_within(ramp, threshold, hold, rows, counts, places, colours);
            after(n, made)
        }
    }
}
