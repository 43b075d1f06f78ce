// Whether a lent record may be thinned or refreshed: refusals 1 to 5, then 20.
#![tactic(auto)]

ghost use Rattle.std.specs.Prelude.{◌≡◌, length};
ghost use Rattle.stops.specs.Answers.{Checks};
ghost use Rattle.sampling.specs.Constants.{marks_length};
ghost use Rattle.sampling.specs.Lent.{shared_held};
ghost use Rattle.sampling.specs.Sampling.{and_then, marks_in};
ghost use Rattle.records.specs.Fitness.{counts_check, marks_check, thin_check};
ghost use Rattle.gradient.specs.Lent.{lent_ramp};

use gradient::Ramp;
use refusals::{BAD_RECORD, OTHER_THRESHOLD};
use sampling::{Sampler, check_sample};
use stops::Checked;

// Refusal 5 of a count that is 0 or above 128.
pub fn check_counts(counts: &[u8]) -> Checked
    ensures { result ≡ counts_check counts.now }
{
    if counts
        .iter()
        .all(|n| *n >= 1 && usize::from(*n) <= Sampler::ROW)
    {
        Checked::Fine
    } else {
        Checked::Refused(BAD_RECORD)
    }
}

// Refusal 20 of a record that was sampled with another threshold in force, or on another domain: bits are compared.
fn check_marks(ramp: &Ramp<'_>, threshold: f32, marks: &[u32]) -> Checked
    requires { length marks.now ≡ marks_length }
    ensures { result ≡ marks_check (marks_in ramp.now.kind ramp.now.positions.now threshold) marks.now }
{
    let sampler = Sampler::new(threshold);
    let own = [
        float::to_bits(sampler.threshold),
        float::to_bits(ramp.min()),
        float::to_bits(ramp.max()),
    ];
    if marks == own.as_slice() {
        Checked::Fine
    } else {
        Checked::Refused(OTHER_THRESHOLD)
    }
}

// The refusal of the first check, or else the answer of the second.
fn in_order(first: Checked, second: Checked) -> Checked
    ensures { result ≡ and_then first second }
{
    match first {
        Checked::Refused(n) => Checked::Refused(n),
        Checked::Fine => second,
    }
}

// Refusals 1 to 5 and 20 of a thinning.
pub fn check_thin(
    ramp: &Ramp<'_>,
    threshold: f32,
    rows: &[f32],
    counts: &[u8],
    marks: &[u32],
) -> Checked
    ensures { Checks (thin_check (lent_ramp ramp.now) threshold (shared_held rows counts marks).entry) result }
{
    match check_sample(ramp, rows.len(), counts.len(), marks.len()) {
        Checked::Refused(n) => Checked::Refused(n),
        Checked::Fine => {
            let counted = check_counts(counts);
            let marked = check_marks(ramp, threshold, marks);
            in_order(counted, marked)
        }
    }
}
