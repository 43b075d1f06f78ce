// Writes stop lists as GIMP gradient files, which read back as the segments written.
#![tactic(auto)]

ghost use Rattle.std.specs.Prelude.{◌≡◌, ◌-◌, true};
ghost use Rattle.std.specs.Float.{inf};
ghost use Rattle.stops.specs.Lent.{change};
ghost use Rattle.ggr_writing.specs.File.{shaped_list, rises, segment_between, writable_colour, writable_segment, writable_from};
ghost use Rattle.ggr_writing.specs.File.{can_write, Writes};

use blend::{Rgba, Stop};
use numerals::is_writable;
use refusals::{FALLING, MISSHAPEN, MOST_WRITTEN, NO_ROOM, UNWRITABLE};
use slices::zero_bytes;

mod lines;

// How many bytes were written, or document 01's number of the refusal.
#[derive(Clone, Copy)]
pub enum WriteAnswer {
    Written(usize),
    Refused(u8),
}

// Writes a list of stops, n positions and 4n channels, as a GIMP file into `text`. 19 and 7 set the whole of it to zero;
// 1 and 3 leave it as it was, and so does a success what lies past the file.
pub fn write(positions: &[f32], channels: &[f32], text: &mut [u8]) -> WriteAnswer
    ensures { Writes positions.now channels.now (change text.old text.new) result }
{
    if !is_shaped(positions.len(), channels.len()) {
        return WriteAnswer::Refused(MISSHAPEN);
    }
    if !never_falls(positions) {
        return WriteAnswer::Refused(FALLING);
    }
    if !can_write(positions, channels) {
        zero_bytes(text);
        return WriteAnswer::Refused(UNWRITABLE);
    }
    let end = lines::put_file(text, positions, channels);
    if text.len() < end {
        zero_bytes(text);
        return WriteAnswer::Refused(NO_ROOM);
    }
    WriteAnswer::Written(end)
}

// From 2 to 257 stops, four channels each.
#[tactic(auto, unfolding(crate::specs::File::shaped_list))]
fn is_shaped(n: usize, m: usize) -> bool
    ensures { result ≡ shaped_list n m }
{
    2 <= n && n <= MOST_WRITTEN && m == 4 * n
}

// No position is below the one before; a NaN is below nothing, and nothing is below a NaN.
fn never_falls(positions: &[f32]) -> bool
    ensures { result ≡ rises (inf true) positions.now }
{
    let mut prev = -1.0f32 / 0.0;
    for &p in positions {
        if p < prev {
            return false;
        }
        prev = p;
    }
    true
}

// It starts at 0 and ends at 1, and every number of every segment can be written.
#[tactic(auto, unfolding(crate::specs::File::can_write))]
fn can_write(positions: &[f32], channels: &[f32]) -> bool
    ensures { result ≡ can_write positions.now channels.now }
{
    let n = positions.len().saturating_sub(1);
    stops::item(positions, 0) == 0.0
        && stops::item(positions, n) == 1.0
        && are_writable(n, positions, channels)
}

// Of the first n segments.
fn are_writable(n: usize, positions: &[f32], channels: &[f32]) -> bool
    ensures { result ≡ writable_from n 0 positions.now channels.now }
{
    for i in 0..n {
        let a = stops::stop(positions, channels, i);
        let b = stops::stop(positions, channels, i + 1);
        if !is_writable_pair(a, b) {
            return false;
        }
    }
    true
}

#[tactic(auto, unfolding(crate::specs::File::writable_segment))]
fn is_writable_pair(a: Stop, b: Stop) -> bool
    ensures { result ≡ writable_segment (segment_between a b) }
{
    is_writable(a.position)
        && is_writable((a.position + b.position) / 2.0)
        && is_writable(b.position)
        && is_writable_colour(a.colour)
        && is_writable_colour(b.colour)
}

#[tactic(auto, unfolding(crate::specs::File::writable_colour))]
fn is_writable_colour(c: Rgba) -> bool
    ensures { result ≡ writable_colour c }
{
    is_writable(c.r) && is_writable(c.g) && is_writable(c.b) && is_writable(c.a)
}
