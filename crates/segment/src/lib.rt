// One segment of a GIMP file: read from its line, and put in the three lists that hold segments.
#![tactic(auto)]

ghost use Rattle.std.specs.Prelude.{◌≡◌};
ghost use Rattle.segment.specs.Line.{notation_by, kind_by, code_of, valid_codes, without_alpha, end_colour, build, SegmentAt};
ghost use Rattle.segment.specs.inner.Steps.{segment_length};

use blend::Rgba;
use gradient::gimp;
use gradient::gimp::Segment;
use refusals::{BAD_SEGMENT, NOT_CARRIED};
use rows::{Notation, Parting, row_at};
use stops::Kind;

pub mod store;

// The rules that a file is read by: document 01's, or those for what GIMP saves.
#[derive(Clone, Copy)]
pub enum Rules {
    Published,
    Saved,
}

// What a line holds: a segment, or document 01's number of why it is none.
#[derive(Clone, Copy)]
pub enum SegmentRead {
    Valid(Segment),
    Fault(u8),
}

impl Rules {
    // How a number may be written.
    fn notation(self) -> Notation
        ensures { result ≡ notation_by self }
    {
        match self {
            Rules::Published => Notation::Short,
            Rules::Saved => Notation::Long,
        }
    }

    // The kind of ramp that the segments make.
    fn kind(self) -> Kind
        ensures { result ≡ kind_by self }
    {
        match self {
            Rules::Published => Kind::Gimp,
            Rules::Saved => Kind::GimpSaved,
        }
    }
}

// The code in x; 6, which is no code, for every other number.
#[tactic(auto, using(crate::proofs::Codes::cuts))]
fn code(x: f32) -> u8
    ensures { result ≡ code_of x }
{
    let z = float::whole(x);
    match z {
        0..=5 => z as u8,
        _ => 6,
    }
}

#[tactic(auto, unfolding(crate::specs::Line::valid_codes))]
fn valid_codes(blending: u8, colouring: u8, left: u8, right: u8) -> bool
    ensures { result ≡ valid_codes blending colouring left right }
{
    blending <= 5 && colouring <= 2 && left <= 4 && right <= 4
}

fn clear(c: Rgba) -> Rgba
    ensures { result ≡ without_alpha c }
{
    Rgba { a: 0.0, ..c }
}

// The colour of a segment's end, by its code.
#[tactic(auto, unfolding(crate::specs::Line::end_colour))]
fn colour(code: u8, own: Rgba, fg: Rgba, bg: Rgba) -> Rgba
    ensures { result ≡ end_colour code own fg bg }
{
    match code {
        0 => own,
        1 => fg,
        2 => clear(fg),
        3 => bg,
        _ => clear(bg),
    }
}

// The segment of 15 numbers.
fn built(rules: Rules, d: [f32; 15], fg: Rgba, bg: Rgba) -> SegmentRead
    ensures { result ≡ build rules fg bg d }
{
    let [
        left,
        middle,
        right,
        left_red,
        left_green,
        left_blue,
        left_alpha,
        right_red,
        right_green,
        right_blue,
        right_alpha,
        blending,
        colouring,
        left_code,
        right_code,
    ] = d;
    let blending = code(blending);
    let colouring = code(colouring);
    let left_code = code(left_code);
    let right_code = code(right_code);
    if !valid_codes(blending, colouring, left_code, right_code) {
        return SegmentRead::Fault(BAD_SEGMENT);
    }
    let own_left = Rgba {
        r: left_red,
        g: left_green,
        b: left_blue,
        a: left_alpha,
    };
    let own_right = Rgba {
        r: right_red,
        g: right_green,
        b: right_blue,
        a: right_alpha,
    };
    let lcolor = colour(left_code, own_left, fg, bg);
    let rcolor = colour(right_code, own_right, fg, bg);
    if gimp::is_carried(rules.kind(), blending, colouring, left, middle, right) {
        SegmentRead::Valid(Segment {
            left,
            middle,
            right,
            lcolor,
            rcolor,
            blending,
            colouring,
        })
    } else {
        SegmentRead::Fault(NOT_CARRIED)
    }
}

fn makes_segment(n: usize) -> bool
    ensures { result ≡ segment_length n }
{
    n == 13 || n == 15
}

// A segment line, and where the next line starts.
#[derive(Clone, Copy)]
pub struct SegmentLine {
    pub read: SegmentRead,
    pub next: usize,
}

// The segment of the line at `at`: 13 or 15 numbers, of which the last two are 0 where they are left out.
pub fn segment_at(s: &[u8], at: usize, rules: Rules, fg: Rgba, bg: Rgba) -> SegmentLine
    ensures { SegmentAt rules fg bg s.now at result.read result.next }
{
    let row = row_at(s, at, Parting::Spaces, rules.notation());
    let read = if makes_segment(row.n) {
        built(rules, row.d, fg, bg)
    } else {
        SegmentRead::Fault(BAD_SEGMENT)
    };
    SegmentLine {
        read,
        next: row.next,
    }
}
