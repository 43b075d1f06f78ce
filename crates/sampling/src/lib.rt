// Sampling a ramp: cell by cell into a lent record.
#![tactic(auto)]

ghost use Rattle.std.specs.Prelude.{◌≡◌};
ghost use Rattle.sqrt.specs.Cutoff.{IsCutoff};
ghost use Rattle.stops.specs.Answers.{Checks};
ghost use Rattle.sampling.specs.Constants.{threshold_of};
ghost use Rattle.sampling.specs.Sampling.{beyond_of, shape_check, sample_check};
ghost use Rattle.sampling.specs.Lent.{lent_held};
ghost use Rattle.sampling.specs.Promises.{Samples, Resamples};
ghost use Rattle.gradient.specs.Lent.{lent_ramp};

use blend::Rgba;
use gradient::Ramp;
use refusals::{BAD_RECORD, FAR_DOMAIN};
use stops::Checked;

pub mod cells;
mod drawn;
mod halving;
mod marks;
mod pairs;
mod resampling;

// The shape of a record, the depth of the halving, the thresholds, and how far a domain may reach.
#[derive(Clone, Copy)]
pub struct Sampler {
    pub threshold: f32,
}

impl Sampler {
    pub const CELLS: usize = 36;

    pub const DEPTH: usize = 7;

    pub const ROW: usize = 128;

    pub const MARKS: usize = 3;

    pub const DEFAULT: f32 = 0.007;

    pub const LEAST: f32 = 0.001;

    pub const MOST: f32 = 0.035;

    pub const FARTHEST: f32 = 100000000000000000000000000000000000000.0;

    // A threshold that is not finite becomes the default, another one is clamped.
    #[tactic(auto, unfolding(crate::specs::Constants::threshold_of))]
    pub fn new(threshold: f32) -> Self
        ensures { result.threshold ≡ threshold_of threshold }
    {
        let threshold = if float::is_finite(threshold) {
            threshold.clamp(Self::LEAST, Self::MOST)
        } else {
            Self::DEFAULT
        };
        Self { threshold }
    }
}

// A number and its colour, so that no point is evaluated twice, and the pair of stops that it lies in (0 for none), which the
// next point is tried in. The colour comes first, so that a point is read in the same parts in which it was written.
#[derive(Clone, Copy)]
pub struct Point {
    pub colour: Rgba,
    pub t: f32,
    pub pair: usize,
}

// What a sampling works by, beside the ramp: its domain, and how far apart colours may be.
#[derive(Clone, Copy)]
pub(crate) struct Task {
    pub(crate) cutoff: f32,
    pub(crate) min: f32,
    pub(crate) max: f32,
}

// Where the next point goes, and how many stretches were tried.
#[derive(Clone, Copy)]
pub(crate) struct Halved {
    pub(crate) at: usize,
    pub(crate) tries: usize,
}

// What one cell hands to the next: the point where that one starts, if it was evaluated, and the tries so far.
#[derive(Clone, Copy)]
pub(crate) struct Carried {
    pub(crate) point: Point,
    pub(crate) known: bool,
    pub(crate) tries: usize,
}

// What sampling answers: the evaluations, or the number of the refusal.
#[derive(Clone, Copy)]
pub enum Sampled {
    Done(usize),
    Refused(u8),
}

// The cutoff of a threshold as it was asked for: colours differ by more where their squares are above it
// (proofs/Thresholds).
pub fn cutoff_of(threshold: f32) -> f32
    ensures { IsCutoff (threshold_of threshold) result }
{
    let sampler = Sampler::new(threshold);
    sqrt::half_root::cutoff(sampler.threshold)
}

// Beyond plus or minus 1e38.
#[tactic(auto, unfolding(crate::specs::Sampling::beyond_of))]
fn beyond(x: f32) -> bool
    ensures { result ≡ beyond_of x }
{
    x < -Sampler::FARTHEST || x > Sampler::FARTHEST
}

// Refusal 4 of a domain, then 5 of a record's lengths.
#[tactic(auto, unfolding(crate::specs::Sampling::shape_check))]
fn check_shape(min: f32, max: f32, rows: usize, counts: usize, marks: usize) -> Checked
    ensures { result ≡ shape_check min max rows counts marks }
{
    let fits = rows == Sampler::CELLS * Sampler::ROW
        && counts == Sampler::CELLS
        && marks == Sampler::MARKS;
    if beyond(min) || beyond(max) {
        Checked::Refused(FAR_DOMAIN)
    } else if fits {
        Checked::Fine
    } else {
        Checked::Refused(BAD_RECORD)
    }
}

// Refusals 1 to 5 of a sampling.
pub fn check_sample(ramp: &Ramp<'_>, rows: usize, counts: usize, marks: usize) -> Checked
    ensures { Checks (sample_check (lent_ramp ramp.now) rows counts marks) result }
{
    match ramp.check() {
        Checked::Refused(n) => Checked::Refused(n),
        Checked::Fine => check_shape(ramp.min(), ramp.max(), rows, counts, marks),
    }
}

// Samples a ramp into the lent record, but for the cells kept, which keep what they hold; the record's words are those of this call.
// A refusal leaves the record as it was.
pub fn resample(
    ramp: &Ramp<'_>,
    threshold: f32,
    keep: [bool; 36],
    rows: &mut [f32],
    counts: &mut [u8],
    marks: &mut [u32],
) -> Sampled
    ensures { Resamples (lent_ramp ramp.now) threshold keep (lent_held rows counts marks) result }
{
    match check_sample(ramp, rows.len(), counts.len(), marks.len()) {
        Checked::Refused(n) => Sampled::Refused(n),
        Checked::Fine => {
            let cutoff = cutoff_of(threshold);
            let min = ramp.min();
            let max = ramp.max();
            let task = Task { cutoff, min, max };
            let n = resampling::resample_cells(ramp, task, keep, rows, counts);
            marks::put(threshold, min, max, marks);
            let evaluations = 3 * n;
            Sampled::Done(evaluations)
        }
    }
}

// Samples a ramp into the lent record. A refusal leaves the record as it was.
pub fn sample(
    ramp: &Ramp<'_>,
    threshold: f32,
    rows: &mut [f32],
    counts: &mut [u8],
    marks: &mut [u32],
) -> Sampled
    ensures { Samples (lent_ramp ramp.now) threshold (lent_held rows counts marks) result }
{
    resample(ramp, threshold, [false; 36], rows, counts, marks)
}
