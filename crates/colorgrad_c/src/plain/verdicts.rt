// A verdict on a list: the refusal of the ramp, 0 for none, and what is told of the list.
ghost use Rattle.std.specs.Prelude.{◌≡◌, [], ◌∷◌};
ghost use Rattle.judge.specs.Verdicts.{number_of_verdict};
ghost use Rattle.colorgrad_c.specs.plain.Telling.{telling};
ghost use Rattle.colorgrad_c.specs.plain.Verdicts.{verdict_told, point_of};

use crate::plain::telling::tell;
use judge::Verdict;

// What is said of the list; nothing, where the ramp is refused.
pub const NOT_JUDGED: usize = 0;

pub const YES: usize = 1;

pub const WRONG_LENGTH: usize = 2;

pub const BAD_STOP: usize = 3;

pub const WRONG_FIRST: usize = 4;

pub const WRONG_LAST: usize = 5;

pub const TOO_FAR: usize = 6;

fn verdict_number(verdict: Verdict) -> u32
    ensures { result ≡ number_of_verdict verdict }
{
    match verdict {
        Verdict::Refused(n) => n as u32,
        _ => 0,
    }
}

// The verdict, the stop that is bad, and the row and the index of the point that is too far.
fn verdict_told(verdict: Verdict) -> [usize; 4]
    ensures { result ≡ verdict_told verdict }
{
    match verdict {
        Verdict::Yes => [YES, 0, 0, 0],
        Verdict::WrongLength => [WRONG_LENGTH, 0, 0, 0],
        Verdict::BadStop { stop } => [BAD_STOP, stop, 0, 0],
        Verdict::WrongFirst => [WRONG_FIRST, 0, 0, 0],
        Verdict::WrongLast => [WRONG_LAST, 0, 0, 0],
        Verdict::TooFar { row, index, .. } => [TOO_FAR, 0, row, index],
        Verdict::Refused(_) => [NOT_JUDGED, 0, 0, 0],
    }
}

// The t of the point that is too far.
fn point_of(verdict: Verdict) -> f32
    ensures { result ≡ point_of verdict }
{
    match verdict {
        Verdict::TooFar { t, .. } => t,
        _ => 0.0,
    }
}

pub(crate) fn tell_verdict(verdict: Verdict, told: &mut [usize], t: &mut [f32]) -> u32
    ensures value { result ≡ number_of_verdict verdict }
    ensures told_value { told.new ≡ telling (verdict_told verdict) told.old }
    ensures t_value { t.new ≡ telling (point_of verdict ∷ []) t.old }
{
    tell(told, &verdict_told(verdict));
    tell(t, &[point_of(verdict)]);
    verdict_number(verdict)
}
