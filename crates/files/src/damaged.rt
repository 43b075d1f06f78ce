// A file cut at every byte, and with every byte changed: how many answers there are of each kind.
use crate::show::{grey, read_as};
use ggr::Answer;
use streams::StandardOutput;

fn add(counts: &mut [u64; 20], at: usize, n: usize) {
    if at < counts.len() {
        counts[at] = counts[at].wrapping_add(n as u64);
    }
}

// Counts the answer by its number, 0 for what is read, and adds its line in the last place.
fn tally(saved: bool, counts: &mut [u64; 20], text: &[u8]) {
    let mut positions = [0.0f32; 6];
    let mut channels = [0.0f32; 16];
    let mut codes = [0u8; 4];
    let r = read_as(
        saved,
        text,
        grey(0.25),
        grey(0.75),
        &mut positions,
        &mut channels,
        &mut codes,
    );
    match r {
        Answer::Read(_) => add(counts, 0, 1),
        Answer::Refused(refusal, line) => {
            add(counts, usize::from(refusal), 1);
            add(counts, 19, line);
        }
    }
}

fn show_tally(out: &mut StandardOutput, label: &str, counts: &[u64; 20]) {
    write!(out, "{label}: read {}", counts[0]);
    for (i, n) in counts[..19].iter().enumerate().skip(1) {
        if *n != 0 {
            write!(out, ", refused {i} {n}");
        }
    }
    writeln!(out, ", lines add up to {}", counts[19]);
}

pub(crate) fn prefixes(out: &mut StandardOutput, saved: bool, text: &[u8]) {
    let mut counts = [0; 20];
    for n in 0..=text.len() {
        tally(saved, &mut counts, &text[..n]);
    }
    show_tally(out, "every prefix", &counts);
}

pub(crate) fn changes(out: &mut StandardOutput, saved: bool, file: &[u8; 55]) {
    let mut counts = [0; 20];
    for i in 0..file.len() {
        let mut text = *file;
        for other in b"\x00\t\n\r +-.05e\xc8" {
            text[i] = *other;
            tally(saved, &mut counts, &text);
        }
    }
    show_tally(out, "every byte changed to a dozen others", &counts);
}
