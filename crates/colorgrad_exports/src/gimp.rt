// GIMP texts: their segments, and their name.
ghost use Rattle.std.specs.Prelude.{◌≡◌, length};
ghost use Rattle.segment.specs.declared.Rules.TheVariants.{Published, Saved};
ghost use Rattle.segment.specs.Store.{lent_store};
ghost use Rattle.ggr.specs.File.{name_of};
ghost use Rattle.colorgrad_c.specs.plain.Telling.{reply};
ghost use Rattle.colorgrad_c.specs.plain.Edits.{rgba_of};
ghost use Rattle.colorgrad_c.specs.plain.Name.{named};
ghost use Rattle.colorgrad_c.specs.Gimp.{ShowsRead};

#[unsafe(no_mangle)]
pub extern "C" fn colorgrad_read_told(
    text: &[u8],
    r: f32,
    g: f32,
    b: f32,
    a: f32,
    br: f32,
    bg: f32,
    bb: f32,
    ba: f32,
    positions: &mut [f32],
    channels: &mut [f32],
    codes: &mut [u8],
    told: &mut [usize],
) -> u32
    ensures { ShowsRead Published (rgba_of r g b a) (rgba_of br bg bb ba) text.now (lent_store positions channels codes) (reply result told) }
{
    colorgrad_c::gimp::colorgrad_read_told(
        text, r, g, b, a, br, bg, bb, ba, positions, channels, codes, told,
    )
}

#[unsafe(no_mangle)]
pub extern "C" fn colorgrad_read_saved_told(
    text: &[u8],
    r: f32,
    g: f32,
    b: f32,
    a: f32,
    br: f32,
    bg: f32,
    bb: f32,
    ba: f32,
    positions: &mut [f32],
    channels: &mut [f32],
    codes: &mut [u8],
    told: &mut [usize],
) -> u32
    ensures { ShowsRead Saved (rgba_of r g b a) (rgba_of br bg bb ba) text.now (lent_store positions channels codes) (reply result told) }
{
    colorgrad_c::gimp::colorgrad_read_saved_told(
        text, r, g, b, a, br, bg, bb, ba, positions, channels, codes, told,
    )
}

#[unsafe(no_mangle)]
pub extern "C" fn colorgrad_name(text: &[u8], out: &mut [u8]) -> usize
    ensures value { result ≡ length (name_of Published text.now) }
    ensures out_value { out.new ≡ named (name_of Published text.now) out.old }
{
    colorgrad_c::gimp::colorgrad_name(text, out)
}

#[unsafe(no_mangle)]
pub extern "C" fn colorgrad_name_saved(text: &[u8], out: &mut [u8]) -> usize
    ensures value { result ≡ length (name_of Saved text.now) }
    ensures out_value { out.new ≡ named (name_of Saved text.now) out.old }
{
    colorgrad_c::gimp::colorgrad_name_saved(text, out)
}
