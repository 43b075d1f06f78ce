// Files that are full, one segment too long, or as long as a text may be.
ghost use Rattle.std.specs.Prelude.{◌+◌, ◌^◌, ◌<◌};

use crate::show::{answer, grey, show};
use spelling::{append, front};
use streams::StandardOutput;

// A file of n segments, of which all but the first have no length, into buf; its length.
fn many(buf: &mut [u8], count: &[u8], n: usize) -> usize {
    let mut at = append(buf, 0, b"GIMP Gradient\nName: many\n");
    at = append(buf, at, count);
    at = append(buf, at, b"\n");
    at = append(buf, at, b"0 .5 1 0 0 0 1 1 1 1 1 0 0\n");
    for _ in 1..n {
        at = append(buf, at, b"1 1 1 0 0 0 1 1 1 1 1 0 0\n");
    }
    at
}

// A file of n segments, and what is answered with room for P positions, C channels and K codes.
fn sized<const P: usize, const C: usize, const K: usize>(
    out: &mut StandardOutput,
    label: &[u8],
    count: &[u8],
    n: usize,
)
    requires { P + C + K < 2 ^ 32 }
{
    let mut text = [0u8; 8192];
    let end = many(&mut text, count, n);
    let mut positions = [9.0f32; P];
    let mut channels = [9.0f32; C];
    let mut codes = [9u8; K];
    answer(
        out,
        false,
        label,
        front(&text, end),
        grey(0.25),
        grey(0.75),
        &mut positions,
        &mut channels,
        &mut codes,
    );
    writeln!(out);
}

// Lent outputs that are exactly full, one segment too many though there is room, and room for two segments but for one channel:
// that is room for one.
pub(crate) fn rooms(out: &mut StandardOutput) {
    sized::<768, 2048, 512>(out, b"256 segments, room 256", b"256", 256);
    sized::<771, 2056, 514>(out, b"257 segments, room 257", b"257", 257);
    sized::<6, 15, 4>(out, b"room 2 but for one channel, count 1", b"1", 2);
    sized::<6, 15, 4>(out, b"room 2 but for one channel, count 2", b"2", 2);
}

// NULs after the last segment are not read, but counted.
pub(crate) fn long(out: &mut StandardOutput) {
    let mut text = [0u8; 65537];
    many(&mut text, b"1", 1);
    show(out, false, b"65,536 bytes", front(&text, 65536));
    show(out, false, b"65,537 bytes", &text);
}
