// What a list, depths and a step must be, once the ramp is fine.
ghost use Rattle.std.specs.Prelude.{◌≡◌};
ghost use Rattle.judge.specs.Lists.{lent_offer};
ghost use Rattle.apart.specs.Checks.{good_depth, first_bad_depth, asked_check, given_check};

use judge::Verdict;
use refusals::{BAD_DEPTHS, BAD_LIST, BAD_STEP};
use stops::{Checked, item, less};

// Depth i is finite, within the domain, and not below the one before it; the first is compared with itself.
fn is_good(min: f32, max: f32, depths: &[f32], i: usize) -> bool
    ensures { result ≡ good_depth min max depths.now i }
{
    let d = item(depths, i);
    float::is_finite(d) && !(d < min) && !(max < d) && !(d < item(depths, less(i)))
}

// The first depth that is not, and the number of depths where all are.
fn first_bad(min: f32, max: f32, depths: &[f32]) -> usize
    ensures { result ≡ first_bad_depth min max depths.now }
{
    for i in 0..depths.len() {
        if !is_good(min, max, depths, i) {
            return i;
        }
    }
    depths.len()
}

// 23 of the depths, then 24 of the step.
fn check_asked(min: f32, max: f32, depths: &[f32], step: f32) -> Checked
    ensures { result ≡ asked_check min max depths.now step }
{
    let n = depths.len();
    if n == 0 || first_bad(min, max, depths) < n {
        Checked::Refused(BAD_DEPTHS)
    } else if !float::is_finite(step) || step < 0.0 {
        Checked::Refused(BAD_STEP)
    } else {
        Checked::Fine
    }
}

// 22 of the list, then the others.
pub(crate) fn check_given(
    min: f32,
    max: f32,
    places: &[f32],
    colours: &[f32],
    depths: &[f32],
    step: f32,
) -> Checked
    ensures { result ≡ given_check min max (lent_offer places colours) depths.now step }
{
    let shape = judge::check_list(min, max, places, colours);
    match shape {
        Verdict::Yes => check_asked(min, max, depths, step),
        _ => Checked::Refused(BAD_LIST),
    }
}
