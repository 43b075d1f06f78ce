// Texts as the programs of the gate have them on standard input: a text to a line, in which | stands for LF, ^ for CR,
// _ for tab, ~ for byte 11, ! for byte 200 and @ for a byte-order mark.
#![tactic(auto)]

ghost use Rattle.std.specs.Prelude.{◌≡◌, length, take, set};
ghost use Rattle.spelling.specs.Spelling.{next_in, Appends, plain_of, meant_by, meant, hits};

// The first n bytes of s, or all that there are.
pub fn front(s: &[u8], n: usize) -> &[u8]
    ensures { result.now ≡ take n s.now }
{
    &s[..n.min(s.len())]
}

// How many bytes of s are b.
pub fn count(s: &[u8], b: u8) -> usize
    ensures { result ≡ hits b s.now }
{
    s.iter().filter(|c| **c == b).count()
}

fn put(buf: &mut [u8], at: usize, b: u8) -> usize
    ensures { (buf.new ≡ set buf.old at b) × (result ≡ next_in (length buf.old) at) }
{
    if at < buf.len() {
        buf[at] = b;
        at + 1
    } else {
        at
    }
}

// s put into buf from `at` on, as far as there is room; the place after it.
pub fn append(buf: &mut [u8], at: usize, s: &[u8]) -> usize
    ensures { Appends buf.old buf.new at s.now result }
{
    let mut n = at;
    for b in s {
        n = put(buf, n, *b);
    }
    n
}

#[tactic(auto, unfolding(crate::specs::Spelling::plain_of))]
fn plain(b: u8) -> u8
    ensures { result ≡ plain_of b }
{
    match b {
        b'|' => 10,
        b'^' => 13,
        b'_' => 9,
        b'~' => 11,
        b'!' => 200,
        _ => b,
    }
}

// What a byte stands for, put into buf.
fn put_plain(buf: &mut [u8], at: usize, b: u8) -> usize
    ensures { Appends buf.old buf.new at (meant_by b) result }
{
    if b == b'@' {
        append(buf, at, b"\xef\xbb\xbf")
    } else {
        put(buf, at, plain(b))
    }
}

// The text that s stands for, put into buf; its length.
pub fn decode(buf: &mut [u8], s: &[u8]) -> usize
    ensures { Appends buf.old buf.new 0 (meant s.now) result }
{
    let mut n = 0;
    for b in s {
        n = put_plain(buf, n, *b);
    }
    n
}
