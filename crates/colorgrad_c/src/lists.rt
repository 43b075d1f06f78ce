// Sampling a ramp into a record, thinning a record to a list of stops, and both at once; the same of lists that keep their word.
// C fixes the parameters of each; a body is `kind_of`, one call and `tell_listed`, which one function over the call would not shorten.
ghost use Rattle.sampling.specs.Lent.{lent_held, shared_held};
ghost use Rattle.linearize.specs.Lent.{lent_output};
ghost use Rattle.colorgrad_c.specs.plain.Telling.{reply};
ghost use Rattle.colorgrad_c.specs.plain.Kinds.{ramp_by};
ghost use Rattle.colorgrad_c.specs.Lists.{CodedSamples, CodedThins, CodedFlattens, CodedThinsWithin, CodedFlattensWithin, lent, lent_beside};

use crate::plain::kinds::kind_of;
use crate::plain::lists::{tell_listed, tell_sampled};
use gradient::Ramp;
use linearize::{Listed, Sampled};
use refusals::MISSHAPEN;

// Tells the evaluations.
#[unsafe(no_mangle)]
pub extern "C" fn colorgrad_sample_told(
    kind: u32,
    positions: &[f32],
    channels: &[f32],
    codes: &[u8],
    threshold: f32,
    rows: &mut [f32],
    counts: &mut [u8],
    marks: &mut [u32],
    told: &mut [usize],
) -> u32
    ensures { CodedSamples (ramp_by kind positions channels codes) threshold (lent_held rows counts marks) (reply result told) }
{
    let Some(known) = kind_of(kind) else {
        return tell_sampled(Sampled::Refused(MISSHAPEN), told);
    };
    let ramp = Ramp {
        positions,
        channels,
        codes,
        kind: known,
    };
    let sampled = linearize::sample(&ramp, threshold, rows, counts, marks);
    tell_sampled(sampled, told)
}

// Tells how many stops were written, and the evaluations.
#[unsafe(no_mangle)]
pub extern "C" fn colorgrad_thin_told(
    kind: u32,
    positions: &[f32],
    channels: &[f32],
    codes: &[u8],
    threshold: f32,
    rows: &[f32],
    counts: &[u8],
    marks: &[u32],
    places: &mut [f32],
    colours: &mut [f32],
    told: &mut [usize],
) -> u32
    ensures { CodedThins (ramp_by kind positions channels codes) threshold (shared_held rows counts marks) (lent_output places colours) (reply result told) }
{
    let Some(known) = kind_of(kind) else {
        return tell_listed(Listed::Refused(MISSHAPEN), told);
    };
    let ramp = Ramp {
        positions,
        channels,
        codes,
        kind: known,
    };
    let listed = linearize::thin(&ramp, threshold, rows, counts, marks, places, colours);
    tell_listed(listed, told)
}

// Tells how many stops were written, and the evaluations.
#[unsafe(no_mangle)]
pub extern "C" fn colorgrad_flatten_told(
    kind: u32,
    positions: &[f32],
    channels: &[f32],
    codes: &[u8],
    threshold: f32,
    rows: &mut [f32],
    counts: &mut [u8],
    marks: &mut [u32],
    places: &mut [f32],
    colours: &mut [f32],
    told: &mut [usize],
) -> u32
    ensures { CodedFlattens (ramp_by kind positions channels codes) threshold (lent_held rows counts marks) (lent_output places colours) (reply result told) }
{
    let Some(known) = kind_of(kind) else {
        return tell_listed(Listed::Refused(MISSHAPEN), told);
    };
    let ramp = Ramp {
        positions,
        channels,
        codes,
        kind: known,
    };
    let listed = linearize::flatten(&ramp, threshold, rows, counts, marks, places, colours);
    tell_listed(listed, told)
}

// Tells how many stops were written, and the evaluations.
#[unsafe(no_mangle)]
pub extern "C" fn colorgrad_thin_within_told(
    kind: u32,
    positions: &[f32],
    channels: &[f32],
    codes: &[u8],
    threshold: f32,
    hold: f32,
    rows: &[f32],
    counts: &[u8],
    marks: &[u32],
    places: &mut [f32],
    colours: &mut [f32],
    told: &mut [usize],
) -> u32
    ensures { CodedThinsWithin (ramp_by kind positions channels codes) threshold hold (lent_beside rows counts marks places colours told) result }
{
    let Some(known) = kind_of(kind) else {
        return tell_listed(Listed::Refused(MISSHAPEN), told);
    };
    let ramp = Ramp {
        positions,
        channels,
        codes,
        kind: known,
    };
    let listed = within::thin_within(&ramp, threshold, hold, rows, counts, marks, places, colours);
    tell_listed(listed, told)
}

// Tells how many stops were written, and the evaluations.
#[unsafe(no_mangle)]
pub extern "C" fn colorgrad_flatten_within_told(
    kind: u32,
    positions: &[f32],
    channels: &[f32],
    codes: &[u8],
    threshold: f32,
    hold: f32,
    rows: &mut [f32],
    counts: &mut [u8],
    marks: &mut [u32],
    places: &mut [f32],
    colours: &mut [f32],
    told: &mut [usize],
) -> u32
    ensures { CodedFlattensWithin (ramp_by kind positions channels codes) threshold hold (lent rows counts marks places colours told) result }
{
    let Some(known) = kind_of(kind) else {
        return tell_listed(Listed::Refused(MISSHAPEN), told);
    };
    let ramp = Ramp {
        positions,
        channels,
        codes,
        kind: known,
    };
    let listed = within::flatten_within(
        &ramp, threshold, hold, rows, counts, marks, places, colours,
    );
    tell_listed(listed, told)
}
