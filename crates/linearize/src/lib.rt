// Flattening a ramp: sampling it into a lent record, and thinning the record to stops.
#![tactic(auto)]

ghost use Rattle.std.specs.Prelude.{◌≡◌};
ghost use Rattle.linearize.specs.Relist.{Relists};
ghost use Rattle.linearize.specs.Desk.{after_spending};
ghost use Rattle.sampling.specs.Lent.{lent_held, shared_held};
ghost use Rattle.linearize.specs.Lent.{lent_output};
ghost use Rattle.linearize.specs.Promises.{Thins, Flattens};
ghost use Rattle.gradient.specs.Lent.{lent_ramp};

use crate::kept::{kept_good, refused_by};
use gradient::Ramp;
use records::check_thin;
pub use sampling::{Sampled, Sampler, resample, sample};
use sampling::{check_sample, cutoff_of};
use stops::Checked;
use thinning::sum;

mod kept;
mod listing;

// What making a list answers.
#[derive(Clone, Copy)]
pub enum Listed {
    Done { stops: usize, evaluations: usize },
    Refused(u8),
}

// Thins a record to stops in the lent outputs. Refusals 1 to 5 and 20 leave the outputs as they were, 7 to 9 set them to zero.
pub fn thin(
    ramp: &Ramp<'_>,
    threshold: f32,
    rows: &[f32],
    counts: &[u8],
    marks: &[u32],
    places: &mut [f32],
    colours: &mut [f32],
) -> Listed
    ensures { Thins (lent_ramp ramp.now) threshold (shared_held rows counts marks).entry (lent_output places colours) result }
{
    match check_thin(ramp, threshold, rows, counts, marks) {
        Checked::Refused(n) => Listed::Refused(n),
        Checked::Fine => {
            let cutoff = cutoff_of(threshold);
            let max = ramp.max();
            listing::thin_record(ramp, cutoff, max, rows, counts, places, colours)
        }
    }
}

// The answer of a list with the evaluations spent before it added, as many as a count can hold.
pub fn after(spent: usize, made: Listed) -> Listed
    ensures { result ≡ after_spending spent made }
{
    match made {
        Listed::Refused(number) => Listed::Refused(number),
        Listed::Done { stops, evaluations } => {
            let all = sum(spent, evaluations);
            Listed::Done {
                stops,
                evaluations: all,
            }
        }
    }
}

// Samples a ramp into the lent record but for the cells kept, then makes the list of its points. Refusals 1 to 5 leave all
// as it was; after 7 to 9 the record is the one sampled anew and the outputs are zero. The ramp is checked once.
pub fn relist(
    ramp: &Ramp<'_>,
    threshold: f32,
    keep: [bool; 36],
    rows: &mut [f32],
    counts: &mut [u8],
    marks: &mut [u32],
    places: &mut [f32],
    colours: &mut [f32],
) -> Listed
    ensures { Relists (lent_ramp ramp.now) threshold keep (lent_held rows counts marks) (lent_output places colours) result }
{
    if !kept_good(keep, counts) {
        return refused_by(check_sample(ramp, rows.len(), counts.len(), marks.len()));
    }
    match resample(ramp, threshold, keep, rows, counts, marks) {
        Sampled::Refused(n) => Listed::Refused(n),
        Sampled::Done(n) => {
            let cutoff = cutoff_of(threshold);
            let max = ramp.max();
            let made = listing::thin_record(ramp, cutoff, max, rows, counts, places, colours);
            after(n, made)
        }
    }
}

// A fresh sampling into the lent record, then the list of its points. Refusals 1 to 5 leave all as it was; after 7 to 9 the
// record is the fresh one and the outputs are zero.
pub fn flatten(
    ramp: &Ramp<'_>,
    threshold: f32,
    rows: &mut [f32],
    counts: &mut [u8],
    marks: &mut [u32],
    places: &mut [f32],
    colours: &mut [f32],
) -> Listed
    ensures { Flattens (lent_ramp ramp.now) threshold (lent_held rows counts marks) (lent_output places colours) result }
{
    relist(
        ramp,
        threshold,
        [false; 36],
        rows,
        counts,
        marks,
        places,
        colours,
    )
}
