// GIMP files with as many segments as may be, and one more.
ghost use Rattle.std.specs.Prelude.{◌+◌, ◌≤◌, ◌<◌, length};

use crate::show::refused;
use blend::Rgba;
use streams::StandardOutput;

// n bytes of the text from `at` on are those of s, over and over.
fn fill(text: &mut [u8], at: usize, s: &[u8], n: usize)
    requires { (at + n ≤ length text.old) × (0 < length s.now) }
{
    for (i, b) in text[at..at + n].iter_mut().enumerate() {
        *b = s[i % s.len()];
    }
}

fn read(out: &mut StandardOutput, label: &str, text: &[u8]) {
    let black = Rgba {
        r: 0.0,
        g: 0.0,
        b: 0.0,
        a: 1.0,
    };
    let mut positions = [9.0f32; 771];
    let mut channels = [9.0f32; 2056];
    let mut codes = [9u8; 514];
    write!(out, "{label}\t");
    match colorgrad::read(
        text,
        black,
        black,
        &mut positions,
        &mut channels,
        &mut codes,
    ) {
        ggr::Answer::Read(n) => write!(out, "read {n}"),
        ggr::Answer::Refused(n, line) => {
            refused(out, n);
            write!(out, " line {line}");
        }
    }
    writeln!(out);
}

// A GIMP file whose line 3 counts so many segments, with 257 lines for them, of which all but the first have no length.
pub fn counted(out: &mut StandardOutput, label: &str, header: &[u8; 29]) {
    let mut text = [0u8; 6712];
    fill(&mut text, 0, header, 29);
    fill(&mut text, 29, b"0 .5 1 0 0 0 1 1 1 1 1 0 0\n", 27);
    fill(&mut text, 56, b"1 1 1 0 0 0 1 1 1 1 1 0 0\n", 6656);
    read(out, label, &text);
}
