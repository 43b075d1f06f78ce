// Judging a list of stops that was made elsewhere: whether it shows a ramp within a threshold, wherever a fresh sampling
// looks. Nothing is lent to be written, and no record is asked for.
#![tactic(auto)]

ghost use Rattle.std.specs.Prelude.{◌≡◌};
ghost use Rattle.stops.specs.declared.Checked.TheVariants.{Fine};
ghost use Rattle.judge.specs.Lists.{offer_in, lent_offer};
ghost use Rattle.judge.specs.Verdicts.{ramp_check, shape_verdict, points_verdict, list_verdict};
ghost use Rattle.judge.specs.inner.Steps.{Sound};
ghost use Rattle.judge.specs.Promises.{Judges};
ghost use Rattle.gradient.specs.Lent.{lent_ramp};

use gradient::Ramp;
use sampling::Sampler;
use stops::Checked;

mod checks;
mod points;

// What is said of a list: yes; or no, with the first thing that is wrong; or the ramp is refused, before the list is looked
// at. A point is told by its row and its place in it, and by its t; max stands at the start of the row after the last.
#[derive(Clone, Copy)]
pub enum Verdict {
    Yes,
    WrongLength,
    BadStop { stop: usize },
    WrongFirst,
    WrongLast,
    TooFar { row: usize, index: usize, t: f32 },
    Refused(u8),
}

// The verdict on the colours of a list, at every point of a fresh sampling. The record is this function's own.
fn judge_colours(ramp: &Ramp<'_>, threshold: f32, places: &[f32], colours: &[f32]) -> Verdict
    requires codes_value { ramp_check (lent_ramp ramp.now) ≡ Fine }
    requires sound { Sound (offer_in places colours) }
    ensures { result ≡ points_verdict (lent_ramp ramp.now) threshold (lent_offer places colours) }
{
    let mut rows = [0.0f32; Sampler::CELLS * Sampler::ROW];
    let mut counts = [0u8; Sampler::CELLS];
    let mut marks = [0u32; Sampler::MARKS];
    sampling::sample(ramp, threshold, &mut rows, &mut counts, &mut marks);
    let sampler = Sampler::new(threshold);
    points::judge_points(
        ramp,
        sampler.threshold,
        places,
        colours,
        ramp.max(),
        &rows,
        &counts,
    )
}

// The verdict on a list's shape, before its colours are asked for: its length, then its stops, then its ends, which are to be
// those of a ramp from min to max. `Yes` where nothing is wrong.
pub fn check_list(min: f32, max: f32, places: &[f32], colours: &[f32]) -> Verdict
    ensures { result ≡ shape_verdict min max (lent_offer places colours) Verdict.Yes }
{
    let n = places.len();
    if !checks::is_sized(n, colours.len()) {
        return Verdict::WrongLength;
    }
    let stop = checks::first_bad(places, colours);
    if stop < n {
        return Verdict::BadStop { stop };
    }
    if places[0] != min {
        return Verdict::WrongFirst;
    }
    if places[n - 1] != max {
        return Verdict::WrongLast;
    }
    Verdict::Yes
}

// The verdict on a list, of a ramp that may be sampled: its shape, then its colours.
fn judge_list(ramp: &Ramp<'_>, threshold: f32, places: &[f32], colours: &[f32]) -> Verdict
    requires { ramp_check (lent_ramp ramp.now) ≡ Fine }
    ensures { result ≡ list_verdict (lent_ramp ramp.now) threshold (lent_offer places colours) }
{
    let min = ramp.min();
    let max = ramp.max();
    let shape = check_list(min, max, places, colours);
    match shape {
        Verdict::Yes => judge_colours(ramp, threshold, places, colours),
        _ => shape,
    }
}

// Whether a list shows a ramp within a threshold: yes, or what is wrong. Refusals 1 to 4 are of the ramp.
pub fn judge(ramp: &Ramp<'_>, threshold: f32, places: &[f32], colours: &[f32]) -> Verdict
    ensures { Judges (lent_ramp ramp.now) threshold (lent_offer places colours) result }
{
    match sampling::check_sample(
        ramp,
        Sampler::CELLS * Sampler::ROW,
        Sampler::CELLS,
        Sampler::MARKS,
    ) {
        Checked::Refused(n) => Verdict::Refused(n),
        Checked::Fine => judge_list(ramp, threshold, places, colours),
    }
}
