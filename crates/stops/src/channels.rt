// Numbers, colours and stops in what is lent: read, and a colour written. Past an end is not-a-number.
ghost use Rattle.std.specs.Prelude.{◌≡◌, ◌+◌, ◌≤◌, ◌<◌, length};
ghost use Rattle.std.proofs.lemmas.List.Edits.{sets};
ghost use Rattle.blend.specs.Channels.{channels_of};
ghost use Rattle.stops.specs.Stops.{pos_at, colour_at, stop_at};

use blend::{Rgba, Stop};
use slices::put;

pub fn item(items: &[f32], i: usize) -> f32
    ensures { result ≡ pos_at items.now i }
{
    items.get(i).copied().unwrap_or(f32::NAN)
}

// The colour of stop i where its channels do not all exist.
fn torn_colour(channels: &[f32], i: usize) -> Rgba
    ensures { result ≡ colour_at channels.now i }
{
    if channels.len() < i {
        return Rgba {
            r: f32::NAN,
            g: f32::NAN,
            b: f32::NAN,
            a: f32::NAN,
        };
    }
    let at = 4 * i;
    Rgba {
        r: item(channels, at),
        g: item(channels, at + 1),
        b: item(channels, at + 2),
        a: item(channels, at + 3),
    }
}

// The colour of stop i: one test for its four channels.
pub fn colour(channels: &[f32], i: usize) -> Rgba
    ensures { result ≡ colour_at channels.now i }
{
    let (colours, _) = channels.as_chunks::<4>();
    match colours.get(i) {
        Some(&[r, g, b, a]) => Rgba { r, g, b, a },
        None => torn_colour(channels, i),
    }
}

pub fn stop(positions: &[f32], channels: &[f32], i: usize) -> Stop
    ensures { result ≡ stop_at positions.now channels.now i }
{
    let position = item(positions, i);
    let colour = colour(channels, i);
    Stop { position, colour }
}

// The four numbers of a colour from k on, where there is room for all of them.
fn put_whole(out: &mut [f32], k: usize, c: Rgba)
    requires { k + 4 ≤ length out.old }
    ensures { out.new ≡ sets out.old k (channels_of c) }
{
    out[k] = c.r;
    out[k + 1] = c.g;
    out[k + 2] = c.b;
    out[k + 3] = c.a;
}

// As many of them as there is room for.
fn put_torn(out: &mut [f32], k: usize, c: Rgba)
    requires { k < length out.old }
    ensures { out.new ≡ sets out.old k (channels_of c) }
{
    put(out, k, c.r);
    put(out, k + 1, c.g);
    put(out, k + 2, c.b);
    put(out, k + 3, c.a);
}

// Stores the four numbers of a colour from k on, as many as there is room for. Painting does so at each point: where there is
// room for all four, none is asked after by itself.
pub fn put_colour(out: &mut [f32], k: usize, c: Rgba)
    ensures { out.new ≡ sets out.old k (channels_of c) }
{
    if k < out.len() {
        if 3 < out.len() - k {
            put_whole(out, k, c);
        } else {
            put_torn(out, k, c);
        }
    }
}
