// GIMP texts: their segments, and their name.
ghost use Rattle.std.specs.Prelude.{◌≡◌, [], ◌∷◌, length};
ghost use Rattle.segment.specs.declared.Rules.TheVariants.{Published, Saved};
ghost use Rattle.segment.specs.Store.{lent_store};
ghost use Rattle.ggr.specs.File.{name_of, number_of_answer, line_of_answer, segments_of_answer};
ghost use Rattle.colorgrad_c.specs.plain.Telling.{telling, reply};
ghost use Rattle.colorgrad_c.specs.plain.Edits.{rgba_of};
ghost use Rattle.colorgrad_c.specs.plain.Name.{named};
ghost use Rattle.colorgrad_c.specs.Gimp.{ShowsRead};

use crate::plain::name::write_name;
use crate::plain::telling::tell;
use blend::Rgba;
use ggr::Answer;

// The refusal; tells its line, 0 if none, and how many segments were read.
fn tell_read(answer: Answer, told: &mut [usize]) -> u32
    ensures value { result ≡ number_of_answer answer }
    ensures told_value { told.new ≡ telling (line_of_answer answer ∷ segments_of_answer answer ∷ []) told.old }
{
    match answer {
        Answer::Read(segments) => {
            tell(told, &[0, segments]);
            0
        }
        Answer::Refused(n, line) => {
            tell(told, &[line, 0]);
            n as u32
        }
    }
}

// The foreground is r, g, b, a, the background br, bg, bb, ba.
#[unsafe(no_mangle)]
pub extern "C" fn colorgrad_read_told(
    text: &[u8],
    r: f32,
    g: f32,
    b: f32,
    a: f32,
    br: f32,
    bg: f32,
    bb: f32,
    ba: f32,
    positions: &mut [f32],
    channels: &mut [f32],
    codes: &mut [u8],
    told: &mut [usize],
) -> u32
    ensures { ShowsRead Published (rgba_of r g b a) (rgba_of br bg bb ba) text.now (lent_store positions channels codes) (reply result told) }
{
    let foreground = Rgba { r, g, b, a };
    let background = Rgba {
        r: br,
        g: bg,
        b: bb,
        a: ba,
    };
    let answer = ggr::read(text, foreground, background, positions, channels, codes);
    tell_read(answer, told)
}

// The same of a file as GIMP saves it. One function over the reader would take all these parameters too, and the reader.
#[unsafe(no_mangle)]
pub extern "C" fn colorgrad_read_saved_told(
    text: &[u8],
    r: f32,
    g: f32,
    b: f32,
    a: f32,
    br: f32,
    bg: f32,
    bb: f32,
    ba: f32,
    positions: &mut [f32],
    channels: &mut [f32],
    codes: &mut [u8],
    told: &mut [usize],
) -> u32
    ensures { ShowsRead Saved (rgba_of r g b a) (rgba_of br bg bb ba) text.now (lent_store positions channels codes) (reply result told) }
{
    let foreground = Rgba { r, g, b, a };
    let background = Rgba {
        r: br,
        g: bg,
        b: bb,
        a: ba,
    };
    let answer = ggr::read_saved(text, foreground, background, positions, channels, codes);
    tell_read(answer, told)
}

// The length of the name. Its bytes are written where the output has room for all of them; else it stays as it is.
#[unsafe(no_mangle)]
pub extern "C" fn colorgrad_name(text: &[u8], out: &mut [u8]) -> usize
    ensures value { result ≡ length (name_of Published text.now) }
    ensures out_value { out.new ≡ named (name_of Published text.now) out.old }
{
    write_name(ggr::name(text), out)
}

// The same of a file as GIMP saves it.
#[unsafe(no_mangle)]
pub extern "C" fn colorgrad_name_saved(text: &[u8], out: &mut [u8]) -> usize
    ensures value { result ≡ length (name_of Saved text.now) }
    ensures out_value { out.new ≡ named (name_of Saved text.now) out.old }
{
    write_name(ggr::name_saved(text), out)
}
