// Segments in the three lists that hold them: 3 positions (left, middle, right), 8 channels (left, right) and 2 codes
// (blending, colouring) each.
ghost use Rattle.std.specs.Prelude.{◌≡◌, ◌*◌, set};
ghost use Rattle.std.proofs.lemmas.List.Edits.{sets};
ghost use Rattle.segment.specs.Store.{segment_positions, segment_codes, lent_store, Stores};
ghost use Rattle.segment.specs.inner.Steps.{ends_channels};

use blend::Rgba;
use gradient::gimp::Segment;
use slices::put;
use stops::channels::put_colour;

fn put_positions(out: &mut [f32], i: usize, g: Segment)
    ensures { out.new ≡ sets out.old (3 * i) (segment_positions g) }
{
    if i < out.len() {
        let at = 3 * i;
        put(out, at, g.left);
        put(out, at + 1, g.middle);
        put(out, at + 2, g.right);
    }
}

fn put_channels(out: &mut [f32], i: usize, left: Rgba, right: Rgba)
    ensures { out.new ≡ sets out.old (8 * i) (ends_channels left right) }
{
    if i < out.len() {
        let at = 8 * i;
        put_colour(out, at, left);
        put_colour(out, at + 4, right);
    }
}

// `slices::put` for bytes.
fn put_byte(out: &mut [u8], at: usize, x: u8)
    ensures { out.new ≡ set out.old at x }
{
    if at < out.len() {
        out[at] = x;
    }
}

fn put_codes(out: &mut [u8], i: usize, g: Segment)
    ensures { out.new ≡ sets out.old (2 * i) (segment_codes g) }
{
    if i < out.len() {
        let at = 2 * i;
        put_byte(out, at, g.blending);
        put_byte(out, at + 1, g.colouring);
    }
}

// The segment g put as the i-th, as much of it as each list has room for.
pub fn put_segment(
    positions: &mut [f32],
    channels: &mut [f32],
    codes: &mut [u8],
    i: usize,
    g: Segment,
)
    ensures { Stores i g (lent_store positions channels codes) }
{
    put_positions(positions, i, g);
    let left = g.lcolor;
    let right = g.rcolor;
    put_channels(channels, i, left, right);
    put_codes(codes, i, g);
}
