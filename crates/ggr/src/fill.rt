// A file read into the lent outputs.
ghost use Rattle.std.specs.Prelude.{◌≡◌, ◌*◌, ◌≤◌, length};
ghost use Rattle.refusals.specs.Limits.{most_segments};
ghost use Rattle.segment.specs.Store.{lent_store};
ghost use Rattle.ggr.specs.File.{joins, segment_room, joined_to};
ghost use Rattle.ggr.specs.inner.Steps.{Fills, ReadsInto, closed_by};

use super::Answer;
use crate::fit::{are_fit_lines, is_fit_text};
use blend::Rgba;
use gradient::gimp::Segment;
use header::{Lead, read_header};
use refusals::{FEW_LINES, NOT_A_TEXT, NOT_FINITE, TORN};
use segment::store::put_segment;
use segment::{Rules, SegmentRead, segment_at};

#[tactic(auto, unfolding(crate::specs::File::segment_room))]
fn room_of(p: usize, c: usize, k: usize) -> usize
    ensures { result ≡ segment_room p c k }
{
    (p / 3).min((c / 8).min(k / 2))
}

// Whether g starts where the one before ends, and its positions are in order.
#[tactic(auto, unfolding(crate::specs::File::joins))]
fn joins_on(end: f32, g: Segment) -> bool
    ensures { result ≡ joins end g }
{
    g.left == end && g.left <= g.middle && g.middle <= g.right
}

// What a line holds, where the segment before it ends at `end`.
#[tactic(auto, unfolding(crate::specs::File::joined_to))]
fn weigh(end: f32, o: SegmentRead) -> SegmentRead
    ensures { result ≡ joined_to end o }
{
    match o {
        SegmentRead::Fault(_) => o,
        SegmentRead::Valid(g) => {
            if joins_on(end, g) {
                o
            } else {
                SegmentRead::Fault(TORN)
            }
        }
    }
}

// What is answered after the last of n segments, which ends at `end`.
fn closing(end: f32, n: usize) -> Answer
    requires { n ≤ most_segments }
    ensures { result ≡ closed_by end n }
{
    if end == 1.0 {
        Answer::Read(n)
    } else {
        Answer::Refused(TORN, 3 + n)
    }
}

// The n segment lines from `from` on, written into the outputs.
fn fill(
    rules: Rules,
    s: &[u8],
    from: usize,
    n: usize,
    fg: Rgba,
    bg: Rgba,
    p: &mut [f32],
    c: &mut [f32],
    k: &mut [u8],
) -> Answer
    requires { (n ≤ most_segments) × (3 * n ≤ length p.old) × (8 * n ≤ length c.old) × (2 * n ≤ length k.old) }
    ensures { Fills rules fg bg s.now from n (lent_store p c k) result }
{
    let mut at = from;
    let mut end = 0.0;
    for i in 0..n {
        if s.len() <= at {
            return Answer::Refused(FEW_LINES, 3);
        }
        let l = segment_at(s, at, rules, fg, bg);
        match weigh(end, l.read) {
            SegmentRead::Fault(number) => return Answer::Refused(number, 4 + i),
            SegmentRead::Valid(g) => {
                put_segment(p, c, k, i, g);
                end = g.right;
            }
        }
        at = l.next;
    }
    closing(end, n)
}

// Reads a file: the answer is right, and so are the outputs where it is no refusal.
pub(crate) fn read_into(
    rules: Rules,
    s: &[u8],
    fg: Rgba,
    bg: Rgba,
    p: &mut [f32],
    c: &mut [f32],
    k: &mut [u8],
) -> Answer
    ensures { ReadsInto rules fg bg s.now (lent_store p c k) result }
{
    if !stops::is_finite_colour(fg) {
        return Answer::Refused(NOT_FINITE, 0);
    }
    if !stops::is_finite_colour(bg) {
        return Answer::Refused(NOT_FINITE, 0);
    }
    if !is_fit_text(rules, s) {
        return Answer::Refused(NOT_A_TEXT, 0);
    }
    let room = room_of(p.len(), c.len(), k.len());
    match read_header(s, room) {
        Lead::Refuse(number, line) => Answer::Refused(number, line),
        Lead::Counted(n, at) => {
            if are_fit_lines(rules, s, at, n) {
                fill(rules, s, at, n, fg, bg, p, c, k)
            } else {
                Answer::Refused(NOT_A_TEXT, 0)
            }
        }
    }
}
