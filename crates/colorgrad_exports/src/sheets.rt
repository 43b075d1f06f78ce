// A sheet opened and edited: its ramp, its record and its list, of which there are two sorts, by a number.
ghost use Rattle.colorgrad_c.specs.plain.Kinds.{ramp_by};
ghost use Rattle.colorgrad_c.specs.plain.Edits.{edit_of};
ghost use Rattle.colorgrad_c.specs.plain.Sheets.{sort_of};
ghost use Rattle.colorgrad_c.specs.Lists.{lent};
ghost use Rattle.colorgrad_c.specs.Sheets.{room_by, CodedOpens, CodedEdits};

#[unsafe(no_mangle)]
pub extern "C" fn colorgrad_sheet_open_told(
    kind: u32,
    positions: &[f32],
    channels: &[f32],
    codes: &[u8],
    stops: usize,
    threshold: f32,
    list: u32,
    hold: f32,
    rows: &mut [f32],
    counts: &mut [u8],
    marks: &mut [u32],
    places: &mut [f32],
    colours: &mut [f32],
    told: &mut [usize],
) -> u32
    ensures { CodedOpens stops threshold (sort_of list hold) (lent rows counts marks places colours told) (ramp_by kind positions channels codes) result }
{
    colorgrad_c::sheets::colorgrad_sheet_open_told(
        kind, positions, channels, codes, stops, threshold, list, hold, rows, counts, marks,
        places, colours, told,
    )
}

#[unsafe(no_mangle)]
pub extern "C" fn colorgrad_sheet_edit_told(
    kind: u32,
    positions: &mut [f32],
    channels: &mut [f32],
    codes: &[u8],
    stops: usize,
    sort: u32,
    stop: usize,
    at: f32,
    r: f32,
    g: f32,
    b: f32,
    a: f32,
    threshold: f32,
    list: u32,
    hold: f32,
    rows: &mut [f32],
    counts: &mut [u8],
    marks: &mut [u32],
    places: &mut [f32],
    colours: &mut [f32],
    told: &mut [usize],
) -> u32
    ensures { CodedEdits stops threshold (sort_of list hold) (lent rows counts marks places colours told)
        (room_by kind positions channels codes) (edit_of sort stop at r g b a) result }
{
    colorgrad_c::sheets::colorgrad_sheet_edit_told(
        kind, positions, channels, codes, stops, sort, stop, at, r, g, b, a, threshold, list, hold,
        rows, counts, marks, places, colours, told,
    )
}
