// A list that was made elsewhere: whether it shows the ramp, and which depths became one in it.
ghost use Rattle.std.specs.Prelude.{◌≡◌};
ghost use Rattle.judge.specs.Lists.{lent_offer};
ghost use Rattle.apart.specs.Answers.{number_of_apart};
ghost use Rattle.colorgrad_c.specs.plain.Telling.{telling, reply, replies};
ghost use Rattle.colorgrad_c.specs.plain.Kinds.{ramp_by};
ghost use Rattle.colorgrad_c.specs.Judging.{CodedJudges, CodedTellsApart, apart_told};

use crate::plain::kinds::kind_of;
use crate::plain::telling::tell;
use crate::plain::verdicts::tell_verdict;
use apart::Apart;
use gradient::Ramp;
use judge::Verdict;
use refusals::MISSHAPEN;

// Tells the verdict, and the stop, the row and the index that it names; and the t of the point.
#[unsafe(no_mangle)]
pub extern "C" fn colorgrad_judge_told(
    kind: u32,
    positions: &[f32],
    channels: &[f32],
    codes: &[u8],
    threshold: f32,
    places: &[f32],
    colours: &[f32],
    told: &mut [usize],
    t: &mut [f32],
) -> u32
    ensures { CodedJudges (ramp_by kind positions channels codes) threshold (lent_offer places colours) (replies result told t) }
{
    let Some(known) = kind_of(kind) else {
        return tell_verdict(Verdict::Refused(MISSHAPEN), told, t);
    };
    let ramp = Ramp {
        positions,
        channels,
        codes,
        kind: known,
    };
    let verdict = judge::judge(&ramp, threshold, places, colours);
    tell_verdict(verdict, told, t)
}

// The refusal; tells how many depths moved, are close, are merged, and the first merged one; 0 where it is refused.
fn tell_apart(apart: Apart, told: &mut [usize]) -> u32
    ensures value { result ≡ number_of_apart apart }
    ensures told_value { told.new ≡ telling (apart_told apart) told.old }
{
    match apart {
        Apart::Told {
            moved,
            close,
            merged,
            first_merged,
        } => {
            tell(told, &[moved, close, merged, first_merged]);
            0
        }
        Apart::Refused(n) => {
            tell(told, &[0, 0, 0, 0]);
            n as u32
        }
    }
}

// Writes a byte for each depth, and tells how many moved, are close, are merged, and the first merged one.
#[unsafe(no_mangle)]
pub extern "C" fn colorgrad_apart_told(
    kind: u32,
    positions: &[f32],
    channels: &[f32],
    codes: &[u8],
    threshold: f32,
    step: f32,
    depths: &[f32],
    places: &[f32],
    colours: &[f32],
    faults: &mut [u8],
    told: &mut [usize],
) -> u32
    ensures { CodedTellsApart (ramp_by kind positions channels codes) threshold step (lent_offer places colours) depths.now faults (reply result told) }
{
    let Some(known) = kind_of(kind) else {
        return tell_apart(Apart::Refused(MISSHAPEN), told);
    };
    let ramp = Ramp {
        positions,
        channels,
        codes,
        kind: known,
    };
    let apart = apart::apart(&ramp, threshold, step, depths, places, colours, faults);
    tell_apart(apart, told)
}
