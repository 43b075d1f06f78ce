// The tool on texts of every fault. Standard input has a text to a line: what it shows, a tab, the text, spelt in one
// line. Then come texts that are long, and outputs that are short. Of each it writes what it shows, then what the tool
// prints, of a long answer only its length and two sums.
#![tactic(auto)]

use desk::Desked;
use spelling::{append, count, decode, front};
use std::io;
use streams::{StandardOutput, read_full};
use text::line_at;

// The bytes added up, and the sums on the way added up, which tells their order too.
fn digest(out: &mut StandardOutput, s: &[u8]) {
    let mut sum: u64 = 0;
    let mut sums: u64 = 0;
    for b in s {
        sum = sum.wrapping_add(u64::from(*b));
        sums = sums.wrapping_add(sum);
    }
    writeln!(out, "{} bytes {sum} {sums}", s.len());
}

fn show(out: &mut StandardOutput, s: &[u8]) {
    if s.len() <= 512 {
        out.put(s);
    } else {
        digest(out, s);
    }
}

fn run(out: &mut StandardOutput, label: &[u8], text: &[u8]) {
    let mut output = [0u8; desk::MOST_PRINTED];
    write!(out, "# ");
    out.put(label);
    writeln!(out);
    match desk::desk(text, &mut output) {
        Desked::Printed(n) => show(out, front(&output, n)),
        Desked::Short(n) => writeln!(out, "short {n}"),
    }
}

// `files` has such lines, with another call in them: shared, they would be a public function of `spelling`, with a promise.
fn row(out: &mut StandardOutput, line: &[u8]) {
    let mut text = [0u8; 4096];
    if let Some(tab) = line.iter().position(|b| *b == b'\t') {
        let n = decode(&mut text, &line[tab + 1..]);
        run(out, &line[..tab], front(&text, n));
    }
}

fn rows(out: &mut StandardOutput, s: &[u8]) {
    let mut at = 0;
    while at < s.len() {
        let l = line_at(s, at);
        let end = l.end;
        row(out, &s[at..end]);
        at = l.next;
    }
}

// A text that starts with head, goes on with n times the line, and ends with tail.
fn long(out: &mut StandardOutput, label: &[u8], head: &[u8], line: &[u8], n: usize, tail: &[u8]) {
    let mut text = [0u8; 16400];
    let mut at = append(&mut text, 0, head);
    for _ in 0..n {
        at = append(&mut text, at, line);
    }
    at = append(&mut text, at, tail);
    run(out, label, front(&text, at));
}

// A stop has 15 bytes, so that 1,090 of them after 34 bytes make 16,384.
fn longs(out: &mut StandardOutput) {
    let stop = b"stop\t0\t0\t0\t0\t1\n";
    long(out, b"512 stops", b"kind\tlinear\n", stop, 512, b"");
    long(
        out,
        b"512 stops and an edit of the last",
        b"kind\tlinear\n",
        stop,
        512,
        b"edit\t511\t1\t1\t1\t1\n",
    );
    long(out, b"513 stops", b"kind\tlinear\n", stop, 513, b"");
    long(
        out,
        b"513 stops, unread after them",
        b"kind\tlinear\n",
        stop,
        513,
        b"stop\n",
    );
    long(
        out,
        b"16,384 bytes",
        b"kind\tlinear\nthreshold\t0.007000000\n",
        stop,
        1090,
        b"",
    );
    long(
        out,
        b"16,385 bytes",
        b"kind\tlinear\nthreshold\t0.0070000000\n",
        stop,
        1090,
        b"",
    );
    long(
        out,
        b"16,384 bytes, the last an LF too many",
        b"kind\tlinear\nthreshold\t0.00700000\n",
        stop,
        1090,
        b"\n",
    );
}

// Black to white into an output of sevens: the answer, and the zeros and the sevens that the output then holds.
fn hold(out: &mut StandardOutput, output: &mut [u8]) {
    let text = b"kind\tlinear\nstop\t0\t0\t0\t0\t1\nstop\t1\t1\t1\t1\t1\n";
    writeln!(out, "# room {}", output.len());
    match desk::desk(text, output) {
        Desked::Printed(n) => write!(out, "printed {n}"),
        Desked::Short(n) => write!(out, "short {n}"),
    }
    writeln!(
        out,
        ", zeros {}, sevens {}",
        count(output, 0),
        count(output, 7)
    );
}

fn holds(out: &mut StandardOutput) {
    hold(out, &mut []);
    hold(out, &mut [7; 123]);
    hold(out, &mut [7; 124]);
    hold(out, &mut [7; 126]);
}

fn main(rt: HostRuntime) -> io::Result<()> {
    let mut out = StandardOutput::new(rt.stdout());
    let mut input = [0u8; 65536];
    let got = read_full(&mut rt.stdin(), &mut input)?;
    rows(&mut out, front(&input, got));
    longs(&mut out);
    holds(&mut out);
    out.end()
}
