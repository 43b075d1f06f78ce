// What GIMP files and the tool read by: marks, lines, white space, fields; and how they write.
#![tactic(auto)]

ghost use Rattle.std.specs.Prelude.{◌≡◌, ◌+◌, ◌≤◌, length, take, drop};
ghost use Rattle.text.specs.Text.{every, ascii, unmark, white, same, starts, trim, trim_end};
ghost use Rattle.text.specs.Places.{in_class, span, LineAt};

pub mod output;
pub mod utf8;

const TAB: u8 = 9;

const LF: u8 = 10;

const CR: u8 = 13;

// The classes of bytes that the reader scans for; a blank is white space within a line. No closure stands for a class,
// since the contract of `span_end` names it: `in_class k`.
#[derive(Clone, Copy)]
pub enum Class {
    NotLf,
    White,
    Blank,
    NotWhite,
    NotTab,
}

#[tactic(auto, unfolding(crate::specs::Text::white))]
fn is_white(b: u8) -> bool
    ensures { result ≡ white b }
{
    matches!(b, 9..=13 | 32)
}

#[tactic(auto, unfolding(crate::specs::Places::in_class))]
fn belongs(k: Class, b: u8) -> bool
    ensures { result ≡ in_class k b }
{
    match k {
        Class::NotLf => b != LF,
        Class::White => is_white(b),
        Class::Blank => is_white(b) && b != LF,
        Class::NotWhite => !is_white(b),
        Class::NotTab => b != TAB,
    }
}

// Where the bytes of the class that start at `from` end.
pub fn span_end(s: &[u8], from: usize, k: Class) -> usize
    ensures { result ≡ from + span (in_class k) (drop from s.now) }
{
    for i in from..s.len() {
        if !belongs(k, s[i]) {
            return i;
        }
    }
    s.len().max(from)
}

#[derive(Clone, Copy)]
pub struct Line {
    pub end: usize,
    pub next: usize,
}

// The line that starts at `at`, without its LF and a CR just before that.
pub fn line_at(s: &[u8], at: usize) -> Line
    ensures { LineAt s.now at result.end result.next }
{
    let n = span_end(s, at, Class::NotLf);
    if s.len() <= n {
        return Line { end: n, next: n };
    }
    let end = if at < n && s[n - 1] == CR { n - 1 } else { n };
    Line { end, next: n + 1 }
}

pub fn is_ascii(s: &[u8]) -> bool
    ensures { result ≡ every ascii s.now }
{
    s.is_ascii()
}

// Where s starts after its leading byte-order marks.
pub fn marks(s: &[u8]) -> usize
    ensures { (result ≤ length s.now) × (drop result s.now ≡ unmark s.now) }
{
    let mut at = 0;
    while starts_with(&s[at..], b"\xef\xbb\xbf") {
        at += 3;
    }
    at
}

pub fn starts_with(s: &[u8], p: &[u8]) -> bool
    ensures { result ≡ starts p.now s.now }
{
    s.starts_with(p)
}

pub fn is_same(s: &[u8], p: &[u8]) -> bool
    ensures { result ≡ same p.now s.now }
{
    s == p
}

// Where s ends without the white space at its end.
fn trim_end(s: &[u8]) -> usize
    ensures { (result ≤ length s.now) × (take result s.now ≡ trim_end s.now) }
{
    s.iter()
        .rposition(|b| !is_white(*b))
        .map_or(0, |last| last + 1)
}

// s without white space at either end, as a part of s.
pub fn trimmed(s: &[u8]) -> &[u8]
    ensures { result.now ≡ trim s.now }
{
    let a = span_end(s, 0, Class::White);
    let t = &s[a..];
    let e = trim_end(t);
    &t[..e]
}
