// The bytes of a file. One past the end of the output is dropped, so that a file too long for it is measured all the same.
ghost use Rattle.std.specs.Prelude.{◌≤◌, length};
ghost use Rattle.refusals.specs.Limits.{most_written};
ghost use Rattle.text.specs.Output.{PutsFrom, Puts};
ghost use Rattle.ggr_writing.specs.File.{spaced_number, spaced_colour, segment_text, segment_between, segments_from, segments_text, segments_of};
ghost use Rattle.ggr_writing.specs.File.{file_text};

use blend::{Rgba, Stop};
use text::output::{DECIMALS, put, put_all, put_decimal};

// A number and a space.
fn put_field(out: &mut [u8], at: usize, x: f32) -> usize
    ensures { PutsFrom out.old out.new at (spaced_number x) result }
{
    let t = numerals::write(x);

    // A copy: read out of `t`, the bytes make a file take a seventh longer to write (160 microseconds for 138).
    let bytes = t.bytes;
    let end = put_all(out, at, &bytes[..t.len]);
    put(out, end, b' ')
}

fn put_colour(out: &mut [u8], at: usize, c: Rgba) -> usize
    ensures { PutsFrom out.old out.new at (spaced_colour c) result }
{
    let r = put_field(out, at, c.r);
    let g = put_field(out, r, c.g);
    let b = put_field(out, g, c.b);
    put_field(out, b, c.a)
}

// The line of the segment between two stops.
fn put_segment(out: &mut [u8], at: usize, a: Stop, b: Stop) -> usize
    ensures { PutsFrom out.old out.new at (segment_text (segment_between a b)) result }
{
    let left = put_field(out, at, a.position);
    let middle = put_field(out, left, (a.position + b.position) / 2.0);
    let right = put_field(out, middle, b.position);
    let from = put_colour(out, right, a.colour);
    let to = put_colour(out, from, b.colour);
    put_all(out, to, b"0 0\n")
}

// The lines of the first n segments.
fn put_rows(out: &mut [u8], at: usize, n: usize, positions: &[f32], channels: &[f32]) -> usize
    ensures { PutsFrom out.old out.new at (segments_text (segments_from n 0 positions.now channels.now)) result }
{
    let mut next = at;
    for i in 0..n {
        let a = stops::stop(positions, channels, i);
        let b = stops::stop(positions, channels, i + 1);
        next = put_segment(out, next, a, b);
    }
    next
}

// A file, as far as the output goes; how long it is.
pub(crate) fn put_file(out: &mut [u8], positions: &[f32], channels: &[f32]) -> usize
    requires { length positions.now ≤ most_written }
    ensures { Puts out.old out.new 0 (file_text (segments_of positions.now channels.now)) result }
{
    let n = positions.len().saturating_sub(1);
    let head = put_all(out, 0, b"GIMP Gradient\nName: flattened\n");
    let count = put_decimal(out, head, n, DECIMALS);
    let first = put(out, count, b'\n');
    put_rows(out, first, n, positions, channels)
}
