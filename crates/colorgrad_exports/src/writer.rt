// Lists as GIMP texts, and numbers as they are written there.
ghost use Rattle.std.specs.Prelude.{◌≡◌, length};
ghost use Rattle.stops.specs.Lent.{change};
ghost use Rattle.numerals.specs.Written.{text_of};
ghost use Rattle.colorgrad_c.specs.plain.Telling.{reply};
ghost use Rattle.colorgrad_c.specs.plain.Name.{named};
ghost use Rattle.colorgrad_c.specs.Writer.{ShowsWritten};

#[unsafe(no_mangle)]
pub extern "C" fn colorgrad_write_ggr_told(
    positions: &[f32],
    channels: &[f32],
    text: &mut [u8],
    told: &mut [usize],
) -> u32
    ensures { ShowsWritten positions.now channels.now (change text.old text.new) (reply result told) }
{
    colorgrad_c::writer::colorgrad_write_ggr_told(positions, channels, text, told)
}

#[unsafe(no_mangle)]
pub extern "C" fn colorgrad_numeral(x: f32, out: &mut [u8]) -> usize
    ensures value { result ≡ length (text_of x) }
    ensures out_value { out.new ≡ named (text_of x) out.old }
{
    colorgrad_c::writer::colorgrad_numeral(x, out)
}
