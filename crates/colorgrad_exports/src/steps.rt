// A list handed out one stop at a time.
ghost use Rattle.sampling.specs.Lent.{shared_held};
ghost use Rattle.colorgrad_c.specs.plain.Telling.{replies};
ghost use Rattle.colorgrad_c.specs.plain.Kinds.{ramp_by};
ghost use Rattle.colorgrad_c.specs.Steps.{CodedHandsOut};

#[unsafe(no_mangle)]
pub extern "C" fn colorgrad_next_stop_told(
    kind: u32,
    positions: &[f32],
    channels: &[f32],
    codes: &[u8],
    threshold: f32,
    rows: &[f32],
    counts: &[u8],
    marks: &[u32],
    state: u32,
    row: u32,
    index: u32,
    told: &mut [usize],
    stop: &mut [f32],
) -> u32
    ensures { CodedHandsOut (ramp_by kind positions channels codes) threshold (shared_held rows counts marks) state row index (replies result told stop) }
{
    colorgrad_c::steps::colorgrad_next_stop_told(
        kind, positions, channels, codes, threshold, rows, counts, marks, state, row, index, told,
        stop,
    )
}
