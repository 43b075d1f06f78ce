// Runs the leaves on each line of standard input, and writes the line with the answer behind it.
// A line is a letter, a blank and a pattern of 8 hex digits, or for `t` a token, for `l` a long one.
#![tactic(auto)]

ghost use Rattle.std.specs.Prelude.{◌<◌};

use decimal::Token;
use std::io;
use streams::{StandardOutput, read_full};

// The value of a hexadecimal digit, 0 for any other byte. `replay` has the same lines: shared, they would be a public function of
// `streams`, with a definition and a promise of its own.
fn digit(b: u8) -> u32
    ensures { result < 16 }
{
    match b {
        b'0'..=b'9' => u32::from(b - b'0'),
        b'a'..=b'f' => u32::from(b - b'a' + 10),
        _ => 0,
    }
}

// The number that the hex digits of s write, its last 32 bits.
fn pattern(s: &[u8]) -> u32 {
    s.iter().fold(0, |v, b| (v << 4) | digit(*b))
}

fn put_bits(out: &mut StandardOutput, x: f32) {
    out.hex(float::to_bits(x));
}

// Codes are small, so only small whole parts are told apart, and the ends of i64.
fn put_whole(out: &mut StandardOutput, z: i64) {
    match z {
        i64::MIN => write!(out, "least"),
        -2..=2 | 5 | 6 => write!(out, "{z}"),
        i64::MAX => write!(out, "most"),
        _ => write!(out, "other"),
    }
}

fn put_token(out: &mut StandardOutput, token: Token) {
    match token {
        Token::Number(x) => put_bits(out, x),
        Token::NoNumber => write!(out, "no number"),
    }
}

// Nothing where the number cannot be written.
fn put_numeral(out: &mut StandardOutput, x: f32) {
    let t = numerals::write(x);
    out.put(&t.bytes[..t.len]);
}

// The pattern b is a whole number for `n`, and for `h` both halves of one.
fn answer(out: &mut StandardOutput, job: u8, b: u32) {
    let x = float::from_bits(b);
    match job {
        b'r' => put_bits(out, sqrt::root(x)),
        b'k' => put_bits(out, sqrt::half_root::cutoff(x)),
        b'm' => put_bits(out, float::magnitude(x)),
        b'c' => put_bits(out, float::clamp(x)),
        b'w' => put_whole(out, float::whole(x)),
        b'n' => put_bits(out, float::from_whole(u64::from(b))),
        b'h' => put_bits(out, float::from_whole(u64::from(b) * 0x1_0000_0001)),
        b'd' => put_numeral(out, x),
        _ if float::is_finite(x) => write!(out, "finite"),
        _ => write!(out, "not finite"),
    }
}

fn run(out: &mut StandardOutput, line: &[u8]) {
    out.put(line);
    write!(out, "\t");
    match line {
        [b't', _, token @ ..] => put_token(out, decimal::read(token)),
        [b'l', _, token @ ..] => put_token(out, decimal::read_long(token)),
        [job, _, digits @ ..] => answer(out, *job, pattern(digits)),
        _ => {}
    }
    writeln!(out);
}

fn main(rt: HostRuntime) -> io::Result<()> {
    let mut out = StandardOutput::new(rt.stdout());
    let mut buffer = [0u8; 65536];
    let n = read_full(&mut rt.stdin(), &mut buffer)?;
    for line in buffer[..n].split_inclusive(|b| *b == b'\n') {
        run(&mut out, line.strip_suffix(b"\n").unwrap_or(line));
    }
    out.end()
}
