// Whether bytes are UTF-8: by what is due, byte after byte.
ghost use Rattle.std.specs.Prelude.{◌≡◌};
ghost use Rattle.text.specs.Utf8.{due, opened, due_after, utf8};

// So many more bytes of a character, the next of them from `low` to `high`.
#[derive(Clone, Copy)]
pub struct Due {
    pub more: u8,
    pub low: u8,
    pub high: u8,
}

// More than are ever due: these bytes are no UTF-8, whatever follows.
const NEVER: u8 = 4;

fn still(more: u8, low: u8, high: u8) -> Due
    ensures { result ≡ due more low high }
{
    Due { more, low, high }
}

// What is due after the first byte of a character.
#[tactic(auto, unfolding(crate::specs::Utf8::opened))]
fn open(b: u8) -> Due
    ensures { result ≡ opened b }
{
    // Most bytes are ASCII, and are told first.
    if b.is_ascii() {
        return still(0, 0x80, 0xBF);
    }
    match b {
        0xC2..=0xDF => still(1, 0x80, 0xBF),
        0xE0 => still(2, 0xA0, 0xBF),
        0xED => still(2, 0x80, 0x9F),
        0xE1..=0xEF => still(2, 0x80, 0xBF),
        0xF0 => still(3, 0x90, 0xBF),
        0xF1..=0xF3 => still(3, 0x80, 0xBF),
        0xF4 => still(3, 0x80, 0x8F),
        _ => still(NEVER, 1, 0),
    }
}

// What is due after one more byte.
#[tactic(auto, unfolding(crate::specs::Utf8::due_after))]
fn next(d: Due, b: u8) -> Due
    ensures { result ≡ due_after d b }
{
    if d.more == 0 {
        open(b)
    } else if d.low <= b && b <= d.high {
        still(d.more - 1, 0x80, 0xBF)
    } else {
        still(NEVER, 1, 0)
    }
}

// No call of str::from_utf8: `utf8` (specs/Utf8) is defined by this walk, and `Due` is the type that it names.
pub fn is_utf8(s: &[u8]) -> bool
    ensures { result ≡ utf8 s.now }
{
    let mut d = still(0, 0x80, 0xBF);
    for b in s {
        d = next(d, *b);
    }
    d.more == 0
}
