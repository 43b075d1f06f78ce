// Reads GIMP gradient files: the segments, written into lent slices, and the name. Two sets of rules: document 01's, and those
// for what GIMP itself saves.
#![tactic(auto)]

ghost use Rattle.std.specs.Prelude.{◌≡◌};
ghost use Rattle.segment.specs.declared.Rules.TheVariants.{Published, Saved};
ghost use Rattle.segment.specs.Store.{lent_store};
ghost use Rattle.ggr.specs.File.{Reading, name_of};

use blend::Rgba;
use header::name_part;
use refusals::MOST_SEGMENTS;
use segment::Rules;
use slices::{zero_bytes, zero_from};

mod fill;
mod fit;

// How many segments were read, or document 01's number of the refusal and its line, 0 if none.
#[derive(Clone, Copy)]
pub enum Answer {
    Read(usize),
    Refused(u8, usize),
}

// Reads a file. A refusal sets every output to zero.
fn read_by(
    rules: Rules,
    text: &[u8],
    foreground: Rgba,
    background: Rgba,
    positions: &mut [f32],
    channels: &mut [f32],
    codes: &mut [u8],
) -> Answer
    ensures { Reading rules foreground background text.now (lent_store positions channels codes) result }
{
    let r = fill::read_into(
        rules, text, foreground, background, positions, channels, codes,
    );
    if let Answer::Refused(_, _) = r {
        zero_from(positions, 0);
        zero_from(channels, 0);
        zero_bytes(codes);
    }
    r
}

// Reads a file by document 01's rules. A segment is 3 positions (left, middle, right), 8 channels (left, right) and 2 codes
// (blending, colouring). A refusal sets every output to zero.
pub fn read(
    text: &[u8],
    foreground: Rgba,
    background: Rgba,
    positions: &mut [f32],
    channels: &mut [f32],
    codes: &mut [u8],
) -> Answer
    ensures { Reading Published foreground background text.now (lent_store positions channels codes) result }
{
    read_by(
        Rules::Published,
        text,
        foreground,
        background,
        positions,
        channels,
        codes,
    )
}

// Reads a file as GIMP saves it: long numbers, a name in any script. The rest is as for `read`, and what that reads is read the
// same.
pub fn read_saved(
    text: &[u8],
    foreground: Rgba,
    background: Rgba,
    positions: &mut [f32],
    channels: &mut [f32],
    codes: &mut [u8],
) -> Answer
    ensures { Reading Saved foreground background text.now (lent_store positions channels codes) result }
{
    read_by(
        Rules::Saved,
        text,
        foreground,
        background,
        positions,
        channels,
        codes,
    )
}

// The name in a file, a part of the text; empty wherever reading with room 256 and finite colours refuses.
fn name_by(rules: Rules, text: &[u8]) -> &[u8]
    ensures { result.now ≡ name_of rules text.now }
{
    let transparent = Rgba {
        r: 0.0,
        g: 0.0,
        b: 0.0,
        a: 0.0,
    };
    let mut positions = [0.0f32; 3 * MOST_SEGMENTS];
    let mut channels = [0.0f32; 8 * MOST_SEGMENTS];
    let mut codes = [0u8; 2 * MOST_SEGMENTS];
    let r = read_by(
        rules,
        text,
        transparent,
        transparent,
        &mut positions,
        &mut channels,
        &mut codes,
    );
    match r {
        Answer::Read(_) => name_part(text),
        Answer::Refused(_, _) => &text[..0],
    }
}

// The name in a file that `read` reads.
pub fn name(text: &[u8]) -> &[u8]
    ensures { result.now ≡ name_of Published text.now }
{
    name_by(Rules::Published, text)
}

// The name in a file that `read_saved` reads.
pub fn name_saved(text: &[u8]) -> &[u8]
    ensures { result.now ≡ name_of Saved text.now }
{
    name_by(Rules::Saved, text)
}
