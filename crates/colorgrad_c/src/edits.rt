// A record refreshed after an edit of any sort, which is given by its code and its parts, and the list made of it.
ghost use Rattle.sampling.specs.Lent.{lent_held};
ghost use Rattle.colorgrad_c.specs.plain.Telling.{reply};
ghost use Rattle.colorgrad_c.specs.plain.Kinds.{ramp_by};
ghost use Rattle.colorgrad_c.specs.plain.Edits.{edit_of};
ghost use Rattle.colorgrad_c.specs.Lists.{lent};
ghost use Rattle.colorgrad_c.specs.Edits.{CodedRefreshes, CodedRelists};

use crate::plain::edits::edit_of;
use crate::plain::kinds::kind_of;
use crate::plain::lists::{tell_listed, tell_sampled};
use gradient::Ramp;
use linearize::Listed;
use refusals::MISSHAPEN;
use sampling::Sampled;

// Tells the evaluations.
#[unsafe(no_mangle)]
pub extern "C" fn colorgrad_edit_told(
    kind: u32,
    positions: &[f32],
    channels: &[f32],
    codes: &[u8],
    sort: u32,
    stop: usize,
    at: f32,
    r: f32,
    g: f32,
    b: f32,
    a: f32,
    threshold: f32,
    rows: &mut [f32],
    counts: &mut [u8],
    marks: &mut [u32],
    told: &mut [usize],
) -> u32
    ensures { CodedRefreshes (ramp_by kind positions channels codes) (edit_of sort stop at r g b a) threshold (lent_held rows counts marks) (reply result told) }
{
    let Some(known) = kind_of(kind) else {
        return tell_sampled(Sampled::Refused(MISSHAPEN), told);
    };
    let ramp = Ramp {
        positions,
        channels,
        codes,
        kind: known,
    };
    let edit = edit_of(sort, stop, at, r, g, b, a);
    let refreshed = refresh::refresh(&ramp, edit, threshold, rows, counts, marks);
    tell_sampled(refreshed, told)
}

// Tells how many stops were written, and the evaluations. What it has in common with the call above is `kind_of` and `edit_of`;
// one function over the rest would take all that C hands over, and a closure.
#[unsafe(no_mangle)]
pub extern "C" fn colorgrad_edit_list_told(
    kind: u32,
    positions: &[f32],
    channels: &[f32],
    codes: &[u8],
    sort: u32,
    stop: usize,
    at: f32,
    r: f32,
    g: f32,
    b: f32,
    a: f32,
    threshold: f32,
    rows: &mut [f32],
    counts: &mut [u8],
    marks: &mut [u32],
    places: &mut [f32],
    colours: &mut [f32],
    told: &mut [usize],
) -> u32
    ensures { CodedRelists (ramp_by kind positions channels codes) (edit_of sort stop at r g b a) threshold (lent rows counts marks places colours told) result }
{
    let Some(known) = kind_of(kind) else {
        return tell_listed(Listed::Refused(MISSHAPEN), told);
    };
    let ramp = Ramp {
        positions,
        channels,
        codes,
        kind: known,
    };
    let edit = edit_of(sort, stop, at, r, g, b, a);
    let listed = refresh::refresh_list(
        &ramp, edit, threshold, rows, counts, marks, places, colours,
    );
    tell_listed(listed, told)
}
