// The answers of the calls on records and lists: the refusal, 0 for none, and the numbers that are told, 0 where it is
// refused.
ghost use Rattle.std.specs.Prelude.{◌≡◌};
ghost use Rattle.sampling.specs.Sampling.{number_of_sampled};
ghost use Rattle.linearize.specs.Desk.{number_of_listed};
ghost use Rattle.colorgrad_c.specs.plain.Telling.{telling};
ghost use Rattle.colorgrad_c.specs.plain.Lists.{sampled_told, listed_told};

use crate::plain::telling::tell;
use linearize::{Listed, Sampled};

// Tells the evaluations.
pub(crate) fn tell_sampled(sampled: Sampled, told: &mut [usize]) -> u32
    ensures value { result ≡ number_of_sampled sampled }
    ensures told_value { told.new ≡ telling (sampled_told sampled) told.old }
{
    match sampled {
        Sampled::Done(evaluations) => {
            tell(told, &[evaluations]);
            0
        }
        Sampled::Refused(n) => {
            tell(told, &[0]);
            n as u32
        }
    }
}

// Tells how many stops were written, and the evaluations.
pub(crate) fn tell_listed(listed: Listed, told: &mut [usize]) -> u32
    ensures value { result ≡ number_of_listed listed }
    ensures told_value { told.new ≡ telling (listed_told listed) told.old }
{
    match listed {
        Listed::Done { stops, evaluations } => {
            tell(told, &[stops, evaluations]);
            0
        }
        Listed::Refused(n) => {
            tell(told, &[0, 0]);
            n as u32
        }
    }
}
