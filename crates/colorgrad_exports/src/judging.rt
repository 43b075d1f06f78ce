// A list that was made elsewhere: whether it shows the ramp, and which depths became one in it.
ghost use Rattle.judge.specs.Lists.{lent_offer};
ghost use Rattle.colorgrad_c.specs.plain.Telling.{reply, replies};
ghost use Rattle.colorgrad_c.specs.plain.Kinds.{ramp_by};
ghost use Rattle.colorgrad_c.specs.Judging.{CodedJudges, CodedTellsApart};

#[unsafe(no_mangle)]
pub extern "C" fn colorgrad_judge_told(
    kind: u32,
    positions: &[f32],
    channels: &[f32],
    codes: &[u8],
    threshold: f32,
    places: &[f32],
    colours: &[f32],
    told: &mut [usize],
    t: &mut [f32],
) -> u32
    ensures { CodedJudges (ramp_by kind positions channels codes) threshold (lent_offer places colours) (replies result told t) }
{
    colorgrad_c::judging::colorgrad_judge_told(
        kind, positions, channels, codes, threshold, places, colours, told, t,
    )
}

#[unsafe(no_mangle)]
pub extern "C" fn colorgrad_apart_told(
    kind: u32,
    positions: &[f32],
    channels: &[f32],
    codes: &[u8],
    threshold: f32,
    step: f32,
    depths: &[f32],
    places: &[f32],
    colours: &[f32],
    faults: &mut [u8],
    told: &mut [usize],
) -> u32
    ensures { CodedTellsApart (ramp_by kind positions channels codes) threshold step (lent_offer places colours) depths.now faults (reply result told) }
{
    colorgrad_c::judging::colorgrad_apart_told(
        kind, positions, channels, codes, threshold, step, depths, places, colours, faults, told,
    )
}
