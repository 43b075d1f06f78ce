// A line of the input: its fields, parted by single tabs, and what it says.
ghost use Rattle.std.specs.Prelude.{◌≡◌, ◌≤◌, length, drop};
ghost use Rattle.text.specs.Text.{fields};
ghost use Rattle.entries.specs.Entries.{entry_of, threshold_entry, stop_entry, edit_entry};

use blend::{Rgba, Stop};
use rows::digits::number_of;
use rows::{Notation, Parting, row_at};
use stops::Kind;
use text::{Class, is_same, span_end, starts_with};

// An index has at most this many digits.
const INDEX_DIGITS: usize = 18;

// A stop is given a colour.
#[derive(Clone, Copy)]
pub struct Recolour {
    pub stop: usize,
    pub colour: Rgba,
}

// What a line says.
#[derive(Clone, Copy)]
pub enum Entry {
    Ramp(Kind),
    Threshold(f32),
    Stop(Stop),
    Change(Recolour),
    Unread,
}

fn threshold_entry(l: &[u8], from: usize) -> Entry
    requires { from ≤ length l.now }
    ensures { result ≡ threshold_entry (fields (drop from l.now)) }
{
    let row = row_at(l, from, Parting::Tabs, Notation::Short);
    let d = row.d;
    if row.n != 1 {
        return Entry::Unread;
    }
    Entry::Threshold(d[0])
}

fn stop_entry(l: &[u8], from: usize) -> Entry
    requires { from ≤ length l.now }
    ensures { result ≡ stop_entry (fields (drop from l.now)) }
{
    let row = row_at(l, from, Parting::Tabs, Notation::Short);
    let d = row.d;
    if row.n != 5 {
        return Entry::Unread;
    }
    let colour = Rgba {
        r: d[1],
        g: d[2],
        b: d[3],
        a: d[4],
    };
    let stop = Stop {
        position: d[0],
        colour,
    };
    Entry::Stop(stop)
}

fn edit_entry(l: &[u8], from: usize) -> Entry
    requires { from ≤ length l.now }
    ensures { result ≡ edit_entry (fields (drop from l.now)) }
{
    let end = span_end(l, from, Class::NotTab);
    if l.len() <= end {
        return Entry::Unread;
    }
    if INDEX_DIGITS < end - from {
        return Entry::Unread;
    }
    let Some(k) = number_of(&l[from..end], false) else {
        return Entry::Unread;
    };
    let row = row_at(l, end + 1, Parting::Tabs, Notation::Short);
    let d = row.d;
    if row.n != 4 {
        return Entry::Unread;
    }
    let colour = Rgba {
        r: d[0],
        g: d[1],
        b: d[2],
        a: d[3],
    };
    let edit = Recolour {
        stop: k as usize,
        colour,
    };
    Entry::Change(edit)
}

// What a line says.
pub(crate) fn entry_of(l: &[u8]) -> Entry
    ensures { result ≡ entry_of l.now }
{
    if starts_with(l, b"stop\t") {
        return stop_entry(l, 5);
    }
    if is_same(l, b"kind\tlinear") {
        return Entry::Ramp(Kind::Linear);
    }
    if is_same(l, b"kind\tsmoothstep") {
        return Entry::Ramp(Kind::Smoothstep);
    }
    if starts_with(l, b"threshold\t") {
        return threshold_entry(l, 10);
    }
    if starts_with(l, b"edit\t") {
        return edit_entry(l, 5);
    }
    Entry::Unread
}
