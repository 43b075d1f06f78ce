// What the library says of itself: its version, and what each refusal and each verdict means, in one line of plain words.
ghost use Rattle.std.specs.Prelude.{◌≡◌, cond, [], ltb, length, get_or};
ghost use Rattle.text.specs.Text.{lines};
ghost use Rattle.colorgrad_c.specs.plain.Name.{named};
ghost use Rattle.colorgrad_c.specs.About.{version, message_of, verdict_message_of};

use crate::plain::name::write_name;
use text::line_at;

const MAJOR: u32 = 0;

const MINOR: u32 = 2;

const PATCH: u32 = 0;

const REFUSALS: usize = 25;

const VERDICTS: usize = 7;

// 0.2.0 is 2000: three digits for the minor number, and three for the patch.
#[unsafe(no_mangle)]
pub extern "C" fn colorgrad_version() -> u32
    ensures { result ≡ version }
{
    1000 * (1000 * MAJOR + MINOR) + PATCH
}

// The number of a text; of those that have none, that of the text after the others.
fn text_number(n: u32, most: usize) -> usize
    ensures { result ≡ cond (ltb n most) n most }
{
    (n as usize).min(most)
}

// Line k, counted from 0; empty past the last.
fn line(texts: &[u8], k: usize) -> &[u8]
    ensures { result.now ≡ get_or (lines texts.now) k [] }
{
    let mut at = 0;
    for _i in 0..k {
        at = line_at(texts, at).next;
    }
    let l = line_at(texts, at);
    let end = l.end;
    &texts[at..end]
}

// The length of line k. Its bytes are written where the output has room for all of them; else it stays as it is.
fn write_line(texts: &[u8], k: usize, out: &mut [u8]) -> usize
    ensures value { result ≡ length (get_or (lines texts.now) k []) }
    ensures out_value { out.new ≡ named (get_or (lines texts.now) k []) out.old }
{
    write_name(line(texts, k), out)
}

// The length of the message of a refusal; that of 0 is 'not refused'. Its bytes are written where the output has room for all
// of them; else it stays as it is.
#[unsafe(no_mangle)]
pub extern "C" fn colorgrad_message_told(refusal: u32, out: &mut [u8]) -> usize
    ensures value { result ≡ length (message_of refusal) }
    ensures out_value { out.new ≡ named (message_of refusal) out.old }
{
    let k = text_number(refusal, REFUSALS);
    write_line(
        b"not refused\n\
        too few or too many stops or segments, an unknown kind, or lengths that disagree\n\
        a position or a channel is not a finite number\n\
        a stop's position is below that of the stop before it\n\
        the domain reaches beyond 1e38\n\
        the record is not 4,608 numbers, 36 counts of 1 to 128 and 3 words, or a place lies outside it\n\
        the edit names no stop that it can be made of, has a number that is not finite, or the ramp is of a kind that cannot be edited so\n\
        the output has no room for all of it\n\
        a stop of the list would not be finite\n\
        a stop of the list would lie below the stop before it\n\
        the GIMP text is too long, or not ASCII where it must be, or its name is not UTF-8\n\
        line 1, 2 or 3 of the GIMP text is not as it must be\n\
        a segment of the GIMP text is not valid\n\
        the GIMP text has fewer segments than it counts\n\
        the GIMP text has no segment\n\
        the GIMP text counts more segments than there is room for\n\
        a segment is curved, which this call does not take, or curved or sinusoidal with its middle outside its ends\n\
        no sharp ramp can be built of so many colours on this domain\n\
        the segments of the GIMP text do not run from 0 to 1, each joined to the next\n\
        a number of the list cannot be written, or it does not run from 0 to 1\n\
        the record was sampled with another threshold or on another domain\n\
        two stops that follow each other do not show what lies between them: colours beyond 16,384\n\
        the list is not 2 to 4,609 stops, finite and never falling, from where the ramp starts to where it ends\n\
        there are no depths, or one is not finite, outside the domain of the ramp, or below the depth before it\n\
        the step is not finite or is below 0\n\
        no such refusal\n",
        k,
        out,
    )
}

// The same of a verdict.
#[unsafe(no_mangle)]
pub extern "C" fn colorgrad_verdict_message_told(verdict: u32, out: &mut [u8]) -> usize
    ensures value { result ≡ length (verdict_message_of verdict) }
    ensures out_value { out.new ≡ named (verdict_message_of verdict) out.old }
{
    let k = text_number(verdict, VERDICTS);
    write_line(
        b"the ramp is refused, and the list was not looked at\n\
        the list shows the ramp within the threshold\n\
        the list is not 2 to 4,609 stops of a position and four channels each\n\
        a stop of the list is not finite, or its position is below that of the stop before it\n\
        the list does not start where the ramp does\n\
        the list does not end where the ramp does\n\
        the list's colour is too far from the ramp's\n\
        no such verdict\n",
        k,
        out,
    )
}
