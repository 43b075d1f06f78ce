// Catmull-Rom segments worked out once for a call: those of the pairs from one on, as many as a table has room for.
ghost use Rattle.std.specs.Prelude.{◌≡◌, cond, ◌-◌, ltb};
ghost use Rattle.blend.specs.Chords.{chords_of};
ghost use Rattle.stops.specs.Near.{segment_for};
ghost use Rattle.stops.specs.Stops.{colour_at};
ghost use Rattle.stops.specs.Segments.{is_catmull_rom, FillsTable, segment_by, chords_after, Chords};

use crate::{Kind, colour, left_of, less, near, right_of};
use blend::{Rgba, catmull_rom};

// The pairs of a table on the stack: 16 KiB, and 2 KiB for ramps of few stops, since setting the larger one up takes longer than
// flattening a ramp of two.
pub const ROOM: usize = 256;

pub const FEW: usize = 32;

pub fn is_catmull_rom(kind: Kind) -> bool
    ensures { result ≡ is_catmull_rom kind }
{
    kind == Kind::CatmullRom
}

// The chords from stop k - 1 to stop k.
fn chords_within(channels: &[f32], k: usize) -> Rgba
    ensures { result ≡ chords_of (colour_at channels.now (k - 1)) (colour_at channels.now k) }
{
    catmull_rom::chords(colour(channels, less(k)), colour(channels, k))
}

// The chords from stop k to the stop after it, or to the mirrored one.
fn chords_after(channels: &[f32], n: usize, k: usize) -> Rgba
    ensures { result ≡ chords_after channels.now n k }
{
    let p = colour(channels, less(k));
    let q = colour(channels, k);
    catmull_rom::chords(q, right_of(channels, n, k, p, q))
}

// The chords before the pair k - 1, k: those of the pair before it, `last`, or to the mirrored stop.
fn chords_before(k: usize, last: Rgba, left: Rgba, p: Rgba) -> Rgba
    ensures { result ≡ cond (ltb 1 k) last (chords_of left p) }
{
    if 1 < k {
        last
    } else {
        catmull_rom::chords(left, p)
    }
}

// The segment of the pair k - 1, k, with the chords of the pair before it, its own and those after it in hand.
fn segment_next(
    channels: &[f32],
    n: usize,
    k: usize,
    last: Rgba,
    within: Rgba,
    after: Rgba,
) -> [[f32; 4]; 4]
    requires { Chords channels.now k last within × (after ≡ chords_after channels.now n k) }
    ensures { result ≡ segment_for channels.now n k }
{
    let p = colour(channels, less(k));
    let q = colour(channels, k);
    let left = left_of(channels, k, p, q);
    let right = right_of(channels, n, k, p, q);
    catmull_rom::draw_segment(
        left,
        p,
        q,
        right,
        chords_before(k, last, left, p),
        within,
        after,
    )
}

// Writes the segments of the pairs of n stops from `base` on, until the table is full. Gives how many there are. Each pair
// hands its chords on to the next.
pub fn fill(channels: &[f32], n: usize, base: usize, table: &mut [[[f32; 4]; 4]]) -> usize
    ensures { FillsTable channels.now n base table.old table.new result }
{
    let count = n.saturating_sub(base).min(table.len());
    let mut last = chords_within(channels, less(base));
    let mut within = chords_within(channels, base);
    for i in 0..count {
        let k = base + i;
        let after = chords_after(channels, n, k);
        table[i] = segment_next(channels, n, k, last, within, after);
        last = within;
        within = after;
    }
    count
}

// The segment of the pair k - 1, k: out of a table of the pairs from `base` on, or worked out where the table has none.
pub fn segment(
    channels: &[f32],
    n: usize,
    base: usize,
    table: &[[[f32; 4]; 4]],
    k: usize,
) -> [[f32; 4]; 4]
    ensures { result ≡ segment_by channels.now n base table.now k }
{
    if base <= k && k - base < table.len() {
        table[k - base]
    } else {
        near::segment_for(channels, n, k)
    }
}
