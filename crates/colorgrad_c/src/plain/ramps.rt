// The answers of the calls on ramps: the refusal, 0 for none, and what is told beside it, 0 where it is refused.
ghost use Rattle.std.specs.Prelude.{◌≡◌};
ghost use Rattle.stops.specs.Answers.{number_of_checked};
ghost use Rattle.paint.specs.Answers.{number_of_at, number_of_painted};
ghost use Rattle.sharp_ramp.specs.Sharp.{number_of_built};
ghost use Rattle.colorgrad_c.specs.plain.Telling.{telling};
ghost use Rattle.colorgrad_c.specs.plain.Ramps.{ends_told, colour_told, built_told};

use crate::plain::telling::tell;
use paint::{ColourAnswer, Painted};
use sharp_ramp::Built;
use stops::Checked;

pub(crate) fn checked_number(checked: Checked) -> u32
    ensures { result ≡ number_of_checked checked }
{
    match checked {
        Checked::Fine => 0,
        Checked::Refused(n) => n as u32,
    }
}

pub(crate) fn painted_number(painted: Painted) -> u32
    ensures { result ≡ number_of_painted painted }
{
    match painted {
        Painted::Done => 0,
        Painted::Refused(n) => n as u32,
    }
}

// Tells the ends of the domain.
pub(crate) fn tell_domain(checked: Checked, min: f32, max: f32, ends: &mut [f32]) -> u32
    ensures value { result ≡ number_of_checked checked }
    ensures ends_value { ends.new ≡ telling (ends_told checked min max) ends.old }
{
    match checked {
        Checked::Fine => {
            tell(ends, &[min, max]);
            0
        }
        Checked::Refused(n) => {
            tell(ends, &[0.0, 0.0]);
            n as u32
        }
    }
}

// Tells the four channels of the colour.
pub(crate) fn tell_colour(answer: ColourAnswer, colour: &mut [f32]) -> u32
    ensures value { result ≡ number_of_at answer }
    ensures colour_value { colour.new ≡ telling (colour_told answer) colour.old }
{
    match answer {
        ColourAnswer::Colour(c) => {
            tell(colour, &[c.r, c.g, c.b, c.a]);
            0
        }
        ColourAnswer::Refused(n) => {
            tell(colour, &[0.0, 0.0, 0.0, 0.0]);
            n as u32
        }
    }
}

// Tells how many stops were written.
pub(crate) fn tell_built(built: Built, told: &mut [usize]) -> u32
    ensures value { result ≡ number_of_built built }
    ensures told_value { told.new ≡ telling (built_told built) told.old }
{
    match built {
        Built::Stops(stops) => {
            tell(told, &[stops]);
            0
        }
        Built::Refused(n) => {
            tell(told, &[0]);
            n as u32
        }
    }
}
