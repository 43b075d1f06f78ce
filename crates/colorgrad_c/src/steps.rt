// A list handed out one stop at a time.
ghost use Rattle.sampling.specs.Lent.{shared_held};
ghost use Rattle.colorgrad_c.specs.plain.Telling.{replies};
ghost use Rattle.colorgrad_c.specs.plain.Kinds.{ramp_by};
ghost use Rattle.colorgrad_c.specs.Steps.{CodedHandsOut};

use crate::plain::kinds::kind_of;
use crate::plain::steps::{place_from, tell_handed};
use gradient::Ramp;
use next_stop::{Handed, Told};
use refusals::MISSHAPEN;

// Tells whether there is a stop, the evaluations, and the state, the row and the index to go on from; and the stop.
#[unsafe(no_mangle)]
pub extern "C" fn colorgrad_next_stop_told(
    kind: u32,
    positions: &[f32],
    channels: &[f32],
    codes: &[u8],
    threshold: f32,
    rows: &[f32],
    counts: &[u8],
    marks: &[u32],
    state: u32,
    row: u32,
    index: u32,
    told: &mut [usize],
    stop: &mut [f32],
) -> u32
    ensures { CodedHandsOut (ramp_by kind positions channels codes) threshold (shared_held rows counts marks) state row index (replies result told stop) }
{
    let place = place_from(state, row, index);
    let Some(known) = kind_of(kind) else {
        let refused = Handed {
            told: Told::Refused(MISSHAPEN),
            evaluations: 0,
            place,
        };
        return tell_handed(refused, told, stop);
    };
    let ramp = Ramp {
        positions,
        channels,
        codes,
        kind: known,
    };
    let handed = next_stop::next_stop(&ramp, threshold, rows, counts, marks, place);
    tell_handed(handed, told, stop)
}
