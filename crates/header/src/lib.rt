// The three header lines of a GIMP file: how many segments, or a refusal; and the name.
#![tactic(auto)]

ghost use Rattle.std.specs.Prelude.{◌≡◌};
ghost use Rattle.header.specs.Head.{saved_head, name_in};
ghost use Rattle.header.specs.Leads.{Leads};
ghost use Rattle.header.specs.inner.Steps.{SecondLeads, ThirdLeads};

use refusals::{BAD_HEADER, MOST_SEGMENTS, NO_SEGMENT, TOO_MANY_SEGMENTS};
use rows::digits::number_of;
use text::utf8::is_utf8;
use text::{is_ascii, is_same, line_at, marks, starts_with, trimmed};

// Where the header leads: to so many segments, whose first line starts at a place, or to a refusal with its line.
#[derive(Clone, Copy)]
pub enum Lead {
    Counted(usize, usize),
    Refuse(u8, usize),
}

// Text that ends before line 3 has count 0. One plus may stand before the digits of the count.
fn count_line(s: &[u8], at: usize, room: usize) -> Lead
    ensures { ThirdLeads room s.now at result }
{
    if s.len() <= at {
        return Lead::Refuse(NO_SEGMENT, 4);
    }
    let l = line_at(s, at);
    let Some(n) = number_of(&s[at..l.end], true) else {
        return Lead::Refuse(BAD_HEADER, 3);
    };
    let m = n as usize;
    if MOST_SEGMENTS < m {
        return Lead::Refuse(TOO_MANY_SEGMENTS, 3);
    }
    if room < m {
        return Lead::Refuse(TOO_MANY_SEGMENTS, 3);
    }
    if m == 0 {
        return Lead::Refuse(NO_SEGMENT, 4);
    }
    Lead::Counted(m, l.next)
}

fn name_line(s: &[u8], at: usize, room: usize) -> Lead
    ensures { SecondLeads room s.now at result }
{
    if s.len() <= at {
        return Lead::Refuse(NO_SEGMENT, 4);
    }
    let l = line_at(s, at);
    if !starts_with(&s[at..l.end], b"Name:") {
        return Lead::Refuse(BAD_HEADER, 2);
    }
    count_line(s, l.next, room)
}

// Document 01's order: line by line 11, 15; then 14.
pub fn read_header(s: &[u8], room: usize) -> Lead
    ensures { Leads room s.now result }
{
    if s.is_empty() {
        return Lead::Refuse(NO_SEGMENT, 4);
    }
    let at = marks(s);
    let l = line_at(s, at);
    if !is_same(&s[at..l.end], b"GIMP Gradient") {
        return Lead::Refuse(BAD_HEADER, 1);
    }
    name_line(s, l.next, room)
}

// Whether lines 1 and 3 are ASCII and line 2 is UTF-8. What follows them is not looked at.
pub fn is_saved_head(s: &[u8]) -> bool
    ensures { result ≡ saved_head s.now }
{
    let at = marks(s);
    let title = line_at(s, at);
    let name = line_at(s, title.next);
    let count = line_at(s, name.next);
    is_ascii(&s[at..title.end])
        && is_utf8(&s[title.next..name.end])
        && is_ascii(&s[name.next..count.end])
}

// What follows `Name:` on line 2, without the white space around it: a part of the text. It is not asked what the line
// starts with.
pub fn name_part(s: &[u8]) -> &[u8]
    ensures { result.now ≡ name_in s.now }
{
    let first = line_at(s, marks(s));
    let second = line_at(s, first.next);
    let line = &s[first.next..second.end];
    if line.len() < 5 {
        &s[..0]
    } else {
        trimmed(&line[5..])
    }
}
