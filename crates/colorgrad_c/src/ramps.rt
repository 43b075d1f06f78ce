// A ramp's check, its domain, its colour at t, its colours at many points, and a sharp ramp built.
ghost use Rattle.stops.specs.Lent.{change};
ghost use Rattle.linearize.specs.Lent.{lent_output};
ghost use Rattle.colorgrad_c.specs.plain.Telling.{reply};
ghost use Rattle.colorgrad_c.specs.plain.Kinds.{ramp_by};
ghost use Rattle.colorgrad_c.specs.Ramps.{CodedChecks, CodedDomain, CodedAt, CodedPaints, ShowsBuilt};

use crate::plain::kinds::kind_of;
use crate::plain::ramps::{checked_number, painted_number, tell_built, tell_colour, tell_domain};
use gradient::Ramp;
use paint::ColourAnswer;
use refusals::MISSHAPEN;
use stops::Checked;

// 0, or the refusal.
#[unsafe(no_mangle)]
pub extern "C" fn colorgrad_check(
    kind: u32,
    positions: &[f32],
    channels: &[f32],
    codes: &[u8],
) -> u32
    ensures { CodedChecks (ramp_by kind positions channels codes) result }
{
    let Some(known) = kind_of(kind) else {
        return MISSHAPEN as u32;
    };
    let ramp = Ramp {
        positions,
        channels,
        codes,
        kind: known,
    };
    checked_number(ramp.check())
}

// Tells the ends of the domain.
#[unsafe(no_mangle)]
pub extern "C" fn colorgrad_domain_told(
    kind: u32,
    positions: &[f32],
    channels: &[f32],
    codes: &[u8],
    ends: &mut [f32],
) -> u32
    ensures { CodedDomain (ramp_by kind positions channels codes) (reply result ends) }
{
    let Some(known) = kind_of(kind) else {
        return tell_domain(Checked::Refused(MISSHAPEN), 0.0, 0.0, ends);
    };
    let ramp = Ramp {
        positions,
        channels,
        codes,
        kind: known,
    };
    let checked = ramp.check();
    let min = ramp.min();
    let max = ramp.max();
    tell_domain(checked, min, max, ends)
}

// Tells the four channels of the colour.
#[unsafe(no_mangle)]
pub extern "C" fn colorgrad_at_told(
    kind: u32,
    positions: &[f32],
    channels: &[f32],
    codes: &[u8],
    t: f32,
    colour: &mut [f32],
) -> u32
    ensures { CodedAt (ramp_by kind positions channels codes) t (reply result colour) }
{
    let Some(known) = kind_of(kind) else {
        return tell_colour(ColourAnswer::Refused(MISSHAPEN), colour);
    };
    let ramp = Ramp {
        positions,
        channels,
        codes,
        kind: known,
    };
    tell_colour(paint::at(&ramp, t), colour)
}

// 0, or the refusal.
#[unsafe(no_mangle)]
pub extern "C" fn colorgrad_paint(
    kind: u32,
    positions: &[f32],
    channels: &[f32],
    codes: &[u8],
    ts: &[f32],
    out: &mut [f32],
) -> u32
    ensures { CodedPaints (ramp_by kind positions channels codes) ts.now (change out.old out.new) result }
{
    let Some(known) = kind_of(kind) else {
        return MISSHAPEN as u32;
    };
    let ramp = Ramp {
        positions,
        channels,
        codes,
        kind: known,
    };
    painted_number(paint::paint(&ramp, ts, out))
}

// Tells how many stops were written.
#[unsafe(no_mangle)]
pub extern "C" fn colorgrad_sharp_told(
    colours: &[f32],
    min: f32,
    max: f32,
    softness: f32,
    positions: &mut [f32],
    channels: &mut [f32],
    told: &mut [usize],
) -> u32
    ensures { ShowsBuilt colours.now min max softness (lent_output positions channels) (reply result told) }
{
    let built = sharp_ramp::build(colours, min, max, softness, positions, channels);
    tell_built(built, told)
}
