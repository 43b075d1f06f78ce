// The reader on files of every fault, in pairs where their order is to show. Standard input has a file to a line: what
// it shows, a tab, the file, spelt in one line. Then come files that are full, long or damaged. Then all of it again, by the
// rules for what GIMP saves, with files of their faults.
#![tactic(auto)]

use damaged::{changes, prefixes};
use saved::{elsewhere, names, numbers, wide};
use show::{grey, show, show_with, values};
use sizes::{long, rooms};
use spelling::{decode, front};
use std::io;
use streams::{StandardOutput, read_full};
use text::line_at;

mod damaged;
mod saved;
mod show;
mod sizes;

// `grammar` has such lines, with another call in them: shared, they would be a public function of `spelling`, with a promise.
fn row(out: &mut StandardOutput, saved: bool, line: &[u8]) {
    let mut text = [0u8; 256];
    if let Some(tab) = line.iter().position(|b| *b == b'\t') {
        let n = decode(&mut text, &line[tab + 1..]);
        show(out, saved, &line[..tab], front(&text, n));
    }
}

fn rows(out: &mut StandardOutput, saved: bool, s: &[u8]) {
    let mut at = 0;
    while at < s.len() {
        let l = line_at(s, at);
        let end = l.end;
        row(out, saved, &s[at..end]);
        at = l.next;
    }
}

fn colours(out: &mut StandardOutput) {
    let infinite = grey(1.0 / 0.0);
    show_with(
        out,
        false,
        b"2 before 10: foreground",
        b"\xc8",
        infinite,
        grey(0.75),
    );
    show_with(
        out,
        false,
        b"2 before 10: background",
        b"\xc8",
        grey(0.25),
        infinite,
    );
    show_with(
        out,
        false,
        b"2, the name with finite colours",
        b"GIMP Gradient\nName: n\n1\n0 .5 1 0 0 0 1 1 1 1 1 0 0\n",
        infinite,
        infinite,
    );
}

fn ends(out: &mut StandardOutput) {
    values(
        out,
        "own colours",
        b"GIMP Gradient\nName:\n1\n0 .5 1 .1 .2 .3 .4 .5 .6 .7 .8 3 0 0 0",
    );
    values(
        out,
        "foreground",
        b"GIMP Gradient\nName:\n1\n0 .5 1 .1 .2 .3 .4 .5 .6 .7 .8 4 0 1 2",
    );
    values(
        out,
        "background",
        b"GIMP Gradient\nName:\n1\n-0 .5 +1. .1 .2 .3 .4 .5 .6 .7 .8 5 0 3 4",
    );
}

fn main(rt: HostRuntime) -> io::Result<()> {
    let mut out = StandardOutput::new(rt.stdout());
    let mut input = [0u8; 8192];
    let got = read_full(&mut rt.stdin(), &mut input)?;
    rows(&mut out, false, front(&input, got));
    colours(&mut out);
    ends(&mut out);
    rooms(&mut out);
    long(&mut out);
    let file = b"GIMP Gradient\nName: n\n1\n0 .5 1 0 0 0 1 1 1 1 1 0 0 0 1\n";
    prefixes(&mut out, false, file);
    changes(&mut out, false, file);
    rows(&mut out, true, front(&input, got));
    names(&mut out);
    numbers(&mut out);
    elsewhere(&mut out);
    wide(&mut out);
    prefixes(&mut out, true, file);
    changes(&mut out, true, file);
    out.end()
}
