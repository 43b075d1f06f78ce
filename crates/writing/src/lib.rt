// What is printed.
#![tactic(auto)]

ghost use Rattle.std.specs.Prelude.{◌≡◌, ◌<◌};
ghost use Rattle.text.specs.Output.{PutsFrom, Puts};
ghost use Rattle.writing.specs.Printed.{hex_of, hex_digit, field_text, colour_text, stop_text, rows_text, line_text};
ghost use Rattle.writing.specs.Printed.{unread_text, refused_text, list_text, reply_text};

use blend::{Rgba, Stop};
use text::output::{DECIMALS, put, put_all, put_decimal};

// What the tool has to say: which line cannot be read, why there is no list, or a list of so many stops. How many is a
// u32, so that no text is too long to be measured.
#[derive(Clone, Copy)]
pub enum Reply {
    Unread(usize),
    Refused(u8),
    Made { stops: u32, evaluations: usize },
}

const TAB: u8 = 9;

const LF: u8 = 10;

// Of the bits of an f32.
const HEX_DIGITS: usize = 8;

#[tactic(auto, unfolding(crate::specs::Printed::hex_digit))]
fn hex_digit(d: u8) -> u8
    requires { d < 16 }
    ensures { result ≡ hex_digit d }
{
    if d < 10 { b'0' + d } else { b'a' + (d - 10) }
}

// The last `left` hex digits of n.
fn put_hex(out: &mut [u8], at: usize, n: u32, left: usize) -> usize
    ensures { PutsFrom out.old out.new at (hex_of left n) result }
{
    if left == 0 {
        return at;
    }
    let digit = hex_digit((n % 16) as u8);
    let next = put_hex(out, at, n / 16, left - 1);
    put(out, next, digit)
}

// A tab, and the bits of x.
fn put_field(out: &mut [u8], at: usize, x: f32) -> usize
    ensures { PutsFrom out.old out.new at (field_text x) result }
{
    let next = put(out, at, TAB);
    put_hex(out, next, float::to_bits(x), HEX_DIGITS)
}

fn put_colour(out: &mut [u8], at: usize, c: Rgba) -> usize
    ensures { PutsFrom out.old out.new at (colour_text c) result }
{
    let r = put_field(out, at, c.r);
    let g = put_field(out, r, c.g);
    let b = put_field(out, g, c.b);
    put_field(out, b, c.a)
}

// The line of a stop, 50 bytes.
fn put_stop(out: &mut [u8], at: usize, s: Stop) -> usize
    ensures { PutsFrom out.old out.new at (stop_text s) result }
{
    let word = put_all(out, at, b"stop");
    let position = put_field(out, word, s.position);
    let colour = put_colour(out, position, s.colour);
    put(out, colour, LF)
}

// The lines of the first n stops.
fn put_rows(out: &mut [u8], at: usize, n: usize, positions: &[f32], channels: &[f32]) -> usize
    ensures { PutsFrom out.old out.new at (rows_text n positions.now channels.now) result }
{
    let mut next = at;
    for i in 0..n {
        next = put_stop(out, next, stops::stop(positions, channels, i));
    }
    next
}

// A word and a number, alone on a line.
fn put_line(out: &mut [u8], word: &[u8], n: usize) -> usize
    ensures { PutsFrom out.old out.new 0 (line_text word.now n) result }
{
    let next = put_all(out, 0, word);
    let end = put_decimal(out, next, n, DECIMALS);
    put(out, end, LF)
}

fn put_unread(out: &mut [u8], line: usize) -> usize
    ensures { Puts out.old out.new 0 (unread_text line) result }
{
    put_line(out, b"unread\t", line)
}

fn put_refused(out: &mut [u8], number: usize) -> usize
    ensures { Puts out.old out.new 0 (refused_text number) result }
{
    put_line(out, b"refused\t", number)
}

// A list of n stops, made with so many evaluations.
fn put_list(
    out: &mut [u8],
    n: u32,
    evaluations: usize,
    positions: &[f32],
    channels: &[f32],
) -> usize
    ensures { Puts out.old out.new 0 (list_text n evaluations positions.now channels.now) result }
{
    let word = put_all(out, 0, b"stops\t");
    let rows = n as usize;
    let count = put_decimal(out, word, rows, DECIMALS);
    let second = put_all(out, count, b"\tevaluations\t");
    let end = put_decimal(out, second, evaluations, DECIMALS);
    let next = put(out, end, LF);
    put_rows(out, next, rows, positions, channels)
}

// Writes a reply, and with a list the stops that are lent, as far as the output goes; how long its text is.
pub fn write(out: &mut [u8], reply: Reply, positions: &[f32], channels: &[f32]) -> usize
    ensures { Puts out.old out.new 0 (reply_text reply positions.now channels.now) result }
{
    match reply {
        Reply::Unread(line) => put_unread(out, line),
        Reply::Refused(number) => put_refused(out, number as usize),
        Reply::Made { stops, evaluations } => put_list(
            out,
            stops,
            evaluations,
            positions,
            channels,
        ),
    }
}
