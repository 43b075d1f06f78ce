// What reading a file answers, and what it leaves in the lent outputs, shown on one line.
use blend::Rgba;
use ggr::Answer;
use spelling::count;
use streams::StandardOutput;

pub(crate) fn grey(x: f32) -> Rgba {
    Rgba {
        r: x,
        g: x,
        b: x,
        a: 1.0,
    }
}

fn say(out: &mut StandardOutput, r: Answer) {
    match r {
        Answer::Read(n) => write!(out, "read {n}"),
        Answer::Refused(refusal, line) => write!(out, "refused {refusal} line {line}"),
    }
}

// How many elements of p are x.
fn floats(p: &[f32], x: f32) -> usize {
    p.iter().filter(|y| **y == x).count()
}

// The answer by document 01's rules, or by those for what GIMP saves. The flag stays: it chooses here and in the name below,
// where two functions to pass along would be two parameters more of every function that shows a file.
pub(crate) fn read_as(
    saved: bool,
    text: &[u8],
    foreground: Rgba,
    background: Rgba,
    positions: &mut [f32],
    channels: &mut [f32],
    codes: &mut [u8],
) -> Answer {
    if saved {
        ggr::read_saved(text, foreground, background, positions, channels, codes)
    } else {
        ggr::read(text, foreground, background, positions, channels, codes)
    }
}

fn name_as(saved: bool, text: &[u8]) -> &[u8] {
    if saved {
        ggr::name_saved(text)
    } else {
        ggr::name(text)
    }
}

// What is tried, the answer, and the zeros that the lent outputs then hold.
pub(crate) fn answer(
    out: &mut StandardOutput,
    saved: bool,
    label: &[u8],
    text: &[u8],
    foreground: Rgba,
    background: Rgba,
    positions: &mut [f32],
    channels: &mut [f32],
    codes: &mut [u8],
) {
    let r = read_as(
        saved, text, foreground, background, positions, channels, codes,
    );
    out.put(label);
    write!(out, ": ");
    say(out, r);
    let zeros = floats(positions, 0.0);
    write!(
        out,
        ", zeros {zeros} {} {}",
        floats(channels, 0.0),
        count(codes, 0)
    );
}

// The answer with room for two segments: 6 positions, 16 channels and 4 codes, each 9 before. Then the name.
pub(crate) fn show_with(
    out: &mut StandardOutput,
    saved: bool,
    label: &[u8],
    text: &[u8],
    foreground: Rgba,
    background: Rgba,
) {
    let mut positions = [9.0f32; 6];
    let mut channels = [9.0f32; 16];
    let mut codes = [9u8; 4];
    answer(
        out,
        saved,
        label,
        text,
        foreground,
        background,
        &mut positions,
        &mut channels,
        &mut codes,
    );
    write!(out, ", name [");
    out.put(name_as(saved, text));
    writeln!(out, "]");
}

pub(crate) fn show(out: &mut StandardOutput, saved: bool, label: &[u8], text: &[u8]) {
    show_with(out, saved, label, text, grey(0.25), grey(0.75));
}

// The answer with room for one segment, how many of its channels are the foreground's 0.25, the background's 0.75 and
// 0, and its codes.
pub(crate) fn values(out: &mut StandardOutput, label: &str, text: &[u8]) {
    let mut positions = [9.0f32; 3];
    let mut channels = [9.0f32; 8];
    let mut codes = [9u8; 2];
    let r = ggr::read(
        text,
        grey(0.25),
        grey(0.75),
        &mut positions,
        &mut channels,
        &mut codes,
    );
    let foreground = floats(&channels, 0.25);
    let background = floats(&channels, 0.75);
    let zeros = floats(&channels, 0.0);
    write!(out, "{label}: ");
    say(out, r);
    write!(out, ", channels {foreground} {background} {zeros}");
    writeln!(out, ", codes {} {}", codes[0], codes[1]);
}
