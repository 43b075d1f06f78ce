// Lists as GIMP texts, and numbers as they are written there.
ghost use Rattle.std.specs.Prelude.{◌≡◌, [], ◌∷◌, length};
ghost use Rattle.stops.specs.Lent.{change};
ghost use Rattle.numerals.specs.Written.{text_of};
ghost use Rattle.ggr_writing.specs.File.{number_of_write_answer, bytes_of_write_answer};
ghost use Rattle.colorgrad_c.specs.plain.Telling.{telling, reply};
ghost use Rattle.colorgrad_c.specs.plain.Name.{named};
ghost use Rattle.colorgrad_c.specs.Writer.{ShowsWritten};

use crate::plain::name::write_name;
use crate::plain::telling::tell;
use ggr_writing::WriteAnswer;

fn tell_written(answer: WriteAnswer, told: &mut [usize]) -> u32
    ensures value { result ≡ number_of_write_answer answer }
    ensures told_value { told.new ≡ telling (bytes_of_write_answer answer ∷ []) told.old }
{
    match answer {
        WriteAnswer::Written(bytes) => {
            tell(told, &[bytes]);
            0
        }
        WriteAnswer::Refused(n) => {
            tell(told, &[0]);
            n as u32
        }
    }
}

// Tells how many bytes were written.
#[unsafe(no_mangle)]
pub extern "C" fn colorgrad_write_ggr_told(
    positions: &[f32],
    channels: &[f32],
    text: &mut [u8],
    told: &mut [usize],
) -> u32
    ensures { ShowsWritten positions.now channels.now (change text.old text.new) (reply result told) }
{
    let answer = ggr_writing::write(positions, channels, text);
    tell_written(answer, told)
}

// The length of the number's text, 0 where it cannot be written. Its bytes are written where the output has room for all
// of them; else it stays as it is.
#[unsafe(no_mangle)]
pub extern "C" fn colorgrad_numeral(x: f32, out: &mut [u8]) -> usize
    ensures value { result ≡ length (text_of x) }
    ensures out_value { out.new ≡ named (text_of x) out.old }
{
    let t = numerals::write(x);
    let bytes = t.bytes;
    let n = t.len;
    write_name(&bytes[..n], out)
}
