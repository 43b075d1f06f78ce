// A sheet opened and edited: its ramp, its record and its list, of which there are two sorts, by a number.
ghost use Rattle.colorgrad_c.specs.plain.Kinds.{ramp_by};
ghost use Rattle.colorgrad_c.specs.plain.Edits.{edit_of};
ghost use Rattle.colorgrad_c.specs.plain.Sheets.{sort_of};
ghost use Rattle.colorgrad_c.specs.Lists.{lent};
ghost use Rattle.colorgrad_c.specs.Sheets.{room_by, CodedOpens, CodedEdits};

use crate::plain::edits::edit_of;
use crate::plain::kinds::kind_of;
use crate::plain::sheets::{list_sort_of, tell_sheet};
use gradient::Ramp;
use refusals::MISSHAPEN;
use sheet::SheetAnswer;

// Tells how many stops the ramp has, how many the list, and the evaluations.
#[unsafe(no_mangle)]
pub extern "C" fn colorgrad_sheet_open_told(
    kind: u32,
    positions: &[f32],
    channels: &[f32],
    codes: &[u8],
    stops: usize,
    threshold: f32,
    list: u32,
    hold: f32,
    rows: &mut [f32],
    counts: &mut [u8],
    marks: &mut [u32],
    places: &mut [f32],
    colours: &mut [f32],
    told: &mut [usize],
) -> u32
    ensures { CodedOpens stops threshold (sort_of list hold) (lent rows counts marks places colours told) (ramp_by kind positions channels codes) result }
{
    let Some(known) = kind_of(kind) else {
        return tell_sheet(stops, SheetAnswer::Refused(MISSHAPEN), told);
    };
    let ramp = Ramp {
        positions,
        channels,
        codes,
        kind: known,
    };
    let answer = sheet::open(
        &ramp,
        stops,
        threshold,
        list_sort_of(list, hold),
        rows,
        counts,
        marks,
        places,
        colours,
    );
    tell_sheet(stops, answer, told)
}

// Tells how many stops the ramp has now, how many the list, and the evaluations.
#[unsafe(no_mangle)]
pub extern "C" fn colorgrad_sheet_edit_told(
    kind: u32,
    positions: &mut [f32],
    channels: &mut [f32],
    codes: &[u8],
    stops: usize,
    sort: u32,
    stop: usize,
    at: f32,
    r: f32,
    g: f32,
    b: f32,
    a: f32,
    threshold: f32,
    list: u32,
    hold: f32,
    rows: &mut [f32],
    counts: &mut [u8],
    marks: &mut [u32],
    places: &mut [f32],
    colours: &mut [f32],
    told: &mut [usize],
) -> u32
    ensures { CodedEdits stops threshold (sort_of list hold) (lent rows counts marks places colours told)
        (room_by kind positions channels codes) (edit_of sort stop at r g b a) result }
{
    let Some(known) = kind_of(kind) else {
        return tell_sheet(stops, SheetAnswer::Refused(MISSHAPEN), told);
    };
    let edit = edit_of(sort, stop, at, r, g, b, a);
    let answer = sheet::edit(
        known,
        positions,
        channels,
        codes,
        stops,
        edit,
        threshold,
        list_sort_of(list, hold),
        rows,
        counts,
        marks,
        places,
        colours,
    );
    tell_sheet(stops, answer, told)
}
