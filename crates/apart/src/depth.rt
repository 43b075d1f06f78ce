// What is wrong at one depth, its byte, and the counts with it.
ghost use Rattle.std.specs.Prelude.{◌≡◌, not, ◌&&◌, ◌<◌};
ghost use Rattle.std.specs.Float.Ieee.{le};
ghost use Rattle.difference.specs.Difference.{distance_of, differs};
ghost use Rattle.apart.specs.inner.Steps.{most_count, fault_from, byte_of, first_next, tally_next, Countable};

use crate::told::{Fault, Seen, Tally};
use blend::Rgba;
use difference::distance;

// Whether two colours differ by no more than the threshold. A difference that is not a number is more.
fn is_near(threshold: f32, x: Rgba, y: Rgba) -> bool
    ensures { result ≡ le (distance_of x y) threshold }
{
    distance(x, y) <= threshold
}

// Whether two colours differ by more than the step. A difference that is not a number is not more.
fn is_told(step: f32, x: Rgba, y: Rgba) -> bool
    ensures { result ≡ differs step x y }
{
    distance(x, y) > step
}

// The list merges two depths that the ramp tells apart, where it does not tell them itself.
fn is_merged(told: bool, kept: bool) -> bool
    ensures { result ≡ (told && not kept) }
{
    told && !kept
}

// What is wrong at depth i, with what was seen at the depth before; the first has none before it.
pub(crate) fn fault_of(threshold: f32, step: f32, i: usize, before: Seen, here: Seen) -> Fault
    ensures { result ≡ fault_from threshold step i before here }
{
    let ramp = here.ramp;
    let list = here.list;
    let near = is_near(threshold, ramp, list);
    if i == 0 {
        Fault {
            moved: !near,
            close: false,
            merged: false,
        }
    } else {
        let ramp_before = before.ramp;
        let list_before = before.list;
        let told = is_told(step, ramp_before, ramp);
        let kept = is_told(step, list_before, list);
        Fault {
            moved: !near,
            close: !told,
            merged: is_merged(told, kept),
        }
    }
}

impl Fault {
    // The byte of a depth: the sum of what holds.
    pub(crate) fn byte(self) -> u8
        ensures { result ≡ byte_of self }
    {
        u8::from(self.moved) + 2 * u8::from(self.close) + 4 * u8::from(self.merged)
    }
}

// The first merged one of the depths up to i, where `first` is that of those before.
fn first_with(first: usize, i: usize, merged: bool) -> usize
    requires { i < most_count }
    ensures { result ≡ first_next first i merged }
{
    if first < i {
        first
    } else if merged {
        i
    } else {
        i + 1
    }
}

impl Tally {
    // These counts, of the depths before, with depth i.
    pub(crate) fn with(self, i: usize, fault: Fault) -> Tally
        requires { Countable self i }
        ensures { result ≡ tally_next self i fault }
    {
        Tally {
            moved: self.moved + usize::from(fault.moved),
            close: self.close + usize::from(fault.close),
            merged: self.merged + usize::from(fault.merged),
            first: first_with(self.first, i, fault.merged),
        }
    }
}
