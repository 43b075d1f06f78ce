// Which depths became one in a list of stops, whoever made it: for each depth whether its colour moved, whether the ramp itself
// holds it too close to the one before, and whether the list merged the two. One byte is written for each depth.
#![tactic(auto)]

ghost use Rattle.std.specs.Prelude.{◌≡◌, ◌≤◌, length};
ghost use Rattle.judge.specs.Lists.{lent_offer};
ghost use Rattle.apart.specs.Checks.{lent_check};
ghost use Rattle.apart.specs.inner.Steps.{any_seen, AnyTells};
ghost use Rattle.apart.specs.Promises.{TellsApart};
ghost use Rattle.gradient.specs.Lent.{lent_ramp};

use crate::told::{Seen, Tally};
use gradient::Ramp;
use refusals::NO_ROOM;
use sampling::Sampler;
use stops::{Checked, Kind};

mod checks;
mod depth;
pub mod told;

pub use crate::told::Apart;

// Refusals 1 to 4 of the ramp, then 22 to 24.
fn check_lent(
    ramp: &Ramp<'_>,
    places: &[f32],
    colours: &[f32],
    depths: &[f32],
    step: f32,
) -> Checked
    ensures { result ≡ lent_check (lent_ramp ramp.now) (lent_offer places colours) depths.now step }
{
    match sampling::check_sample(
        ramp,
        Sampler::CELLS * Sampler::ROW,
        Sampler::CELLS,
        Sampler::MARKS,
    ) {
        Checked::Refused(n) => Checked::Refused(n),
        Checked::Fine => {
            let min = ramp.min();
            let max = ramp.max();
            checks::check_given(min, max, places, colours, depths, step)
        }
    }
}

// The two colours at t, of any slices at all.
fn see(ramp: &Ramp<'_>, places: &[f32], colours: &[f32], t: f32) -> Seen
    ensures { result ≡ any_seen (lent_ramp ramp.now) (lent_offer places colours) t }
{
    let ramp = ramp.colour_at(t);
    let list = stops::colour_at(Kind::Linear, places, colours, t);
    Seen { ramp, list }
}

// Writes the byte of each depth, and counts. The first depth is seen twice: it stands in for the one before it, which there is
// none of.
fn tell(
    ramp: &Ramp<'_>,
    threshold: f32,
    step: f32,
    depths: &[f32],
    places: &[f32],
    colours: &[f32],
    faults: &mut [u8],
) -> Tally
    requires { length depths.now ≤ length faults.old }
    ensures { AnyTells (lent_ramp ramp.now) threshold step (lent_offer places colours) depths.now faults.old faults.new result }
{
    let first = stops::item(depths, 0);
    let mut before = see(ramp, places, colours, first);
    let mut tally = Tally {
        moved: 0,
        close: 0,
        merged: 0,
        first: 0,
    };
    for (i, &t) in depths.iter().enumerate() {
        let here = see(ramp, places, colours, t);
        let fault = depth::fault_of(threshold, step, i, before, here);
        faults[i] = fault.byte();
        tally = tally.with(i, fault);
        before = here;
    }
    tally
}

// Which depths became one. Refusals 1 to 4 are of the ramp, 22 of the list, 23 of the depths, 24 of the step, 7 of the bytes.
pub fn apart(
    ramp: &Ramp<'_>,
    threshold: f32,
    step: f32,
    depths: &[f32],
    places: &[f32],
    colours: &[f32],
    faults: &mut [u8],
) -> Apart
    ensures { TellsApart (lent_ramp ramp.now) threshold step (lent_offer places colours) depths.now faults.old faults.new result }
{
    match check_lent(ramp, places, colours, depths, step) {
        Checked::Refused(n) => Apart::Refused(n),
        Checked::Fine => {
            if faults.len() < depths.len() {
                slices::zero_bytes(faults);
                return Apart::Refused(NO_ROOM);
            }
            let sampler = Sampler::new(threshold);
            let tally = tell(
                ramp,
                sampler.threshold,
                step,
                depths,
                places,
                colours,
                faults,
            );
            Apart::Told {
                moved: tally.moved,
                close: tally.close,
                merged: tally.merged,
                first_merged: tally.first,
            }
        }
    }
}
