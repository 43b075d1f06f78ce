// A ramp's check, its domain, its colour at t, its colours at many points, and a sharp ramp built.
ghost use Rattle.stops.specs.Lent.{change};
ghost use Rattle.linearize.specs.Lent.{lent_output};
ghost use Rattle.colorgrad_c.specs.plain.Telling.{reply};
ghost use Rattle.colorgrad_c.specs.plain.Kinds.{ramp_by};
ghost use Rattle.colorgrad_c.specs.Ramps.{CodedChecks, CodedDomain, CodedAt, CodedPaints, ShowsBuilt};

#[unsafe(no_mangle)]
pub extern "C" fn colorgrad_check(
    kind: u32,
    positions: &[f32],
    channels: &[f32],
    codes: &[u8],
) -> u32
    ensures { CodedChecks (ramp_by kind positions channels codes) result }
{
    colorgrad_c::ramps::colorgrad_check(kind, positions, channels, codes)
}

#[unsafe(no_mangle)]
pub extern "C" fn colorgrad_domain_told(
    kind: u32,
    positions: &[f32],
    channels: &[f32],
    codes: &[u8],
    ends: &mut [f32],
) -> u32
    ensures { CodedDomain (ramp_by kind positions channels codes) (reply result ends) }
{
    colorgrad_c::ramps::colorgrad_domain_told(kind, positions, channels, codes, ends)
}

#[unsafe(no_mangle)]
pub extern "C" fn colorgrad_at_told(
    kind: u32,
    positions: &[f32],
    channels: &[f32],
    codes: &[u8],
    t: f32,
    colour: &mut [f32],
) -> u32
    ensures { CodedAt (ramp_by kind positions channels codes) t (reply result colour) }
{
    colorgrad_c::ramps::colorgrad_at_told(kind, positions, channels, codes, t, colour)
}

#[unsafe(no_mangle)]
pub extern "C" fn colorgrad_paint(
    kind: u32,
    positions: &[f32],
    channels: &[f32],
    codes: &[u8],
    ts: &[f32],
    out: &mut [f32],
) -> u32
    ensures { CodedPaints (ramp_by kind positions channels codes) ts.now (change out.old out.new) result }
{
    colorgrad_c::ramps::colorgrad_paint(kind, positions, channels, codes, ts, out)
}

#[unsafe(no_mangle)]
pub extern "C" fn colorgrad_sharp_told(
    colours: &[f32],
    min: f32,
    max: f32,
    softness: f32,
    positions: &mut [f32],
    channels: &mut [f32],
    told: &mut [usize],
) -> u32
    ensures { ShowsBuilt colours.now min max softness (lent_output positions channels) (reply result told) }
{
    colorgrad_c::ramps::colorgrad_sharp_told(colours, min, max, softness, positions, channels, told)
}
