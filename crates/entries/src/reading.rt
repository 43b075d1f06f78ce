// The input as a whole: the kind, the threshold, the stops, the edit, in this order.
ghost use Rattle.std.specs.Prelude.{◌*◌, ◌≤◌, length};
ghost use Rattle.linearize.specs.Lent.{lent_output};
ghost use Rattle.entries.specs.Input.{most_bytes, Reads};
ghost use Rattle.entries.specs.inner.Steps.{StepAt, StartAt, BlockAt, EndsAs};

use crate::fields::{Entry, Recolour, entry_of};
use blend::Stop;
use linearize::Sampler;
use slices::put;
use stops::Kind;
use stops::channels::put_colour;
use text::line_at;

const MOST_BYTES: usize = 16384;

// The stops that the tool keeps. It is a limit of the tool alone: one for ramps is in `refusals`.
pub const MOST_KEPT: usize = 512;

// What the input asks for: the list of a ramp of so many stops, one of which may be given a colour before it is made.
#[derive(Clone, Copy)]
pub struct Asked {
    pub kind: Kind,
    pub threshold: f32,
    pub stops: usize,
    pub edited: Option<Recolour>,
}

// The number of the line that cannot be read.
#[derive(Clone, Copy)]
pub struct Unread {
    pub line: usize,
}

// What a line says, and where the next one starts.
#[derive(Clone, Copy)]
pub(crate) struct Step {
    pub(crate) entry: Entry,
    pub(crate) next: usize,
}

fn step_at(s: &[u8], at: usize) -> Step
    requires { at ≤ length s.now }
    ensures { StepAt s.now at result.entry result.next }
{
    let l = line_at(s, at);
    Step {
        entry: entry_of(&s[at..l.end]),
        next: l.next,
    }
}

// The threshold, and the place and the number of the line after it.
#[derive(Clone, Copy)]
pub(crate) struct Start {
    pub(crate) threshold: f32,
    pub(crate) at: usize,
    pub(crate) line: usize,
}

fn start_at(s: &[u8], at: usize) -> Start
    requires { at ≤ length s.now }
    ensures { StartAt s.now at result.threshold result.at result.line }
{
    if at < s.len() {
        let step = step_at(s, at);
        if let Entry::Threshold(threshold) = step.entry {
            return Start {
                threshold,
                at: step.next,
                line: 3,
            };
        }
    }
    Start {
        threshold: Sampler::DEFAULT,
        at,
        line: 2,
    }
}

// How many stop lines there are from a place on, and the place after them.
#[derive(Clone, Copy)]
pub(crate) struct Block {
    pub(crate) stops: usize,
    pub(crate) at: usize,
}

fn stops_at(
    s: &[u8],
    from: usize,
    positions: &mut [f32; MOST_KEPT],
    channels: &mut [f32; 4 * MOST_KEPT],
) -> Block
    requires { (from ≤ length s.now) × (length s.now ≤ most_bytes) }
    ensures { BlockAt s.now from result.stops result.at (lent_output positions channels) }
{
    let mut n = 0;
    let mut at = from;
    while at < s.len() {
        let step = step_at(s, at);
        let Entry::Stop(stop) = step.entry else {
            return Block { stops: n, at };
        };
        // A stop past the end of what is lent is not stored, and read all the same.
        put(positions, n, stop.position);
        put_colour(channels, 4 * n, stop.colour);
        n += 1;
        at = step.next;
    }
    Block { stops: n, at }
}

// What follows the stops: an edit or nothing; or the line that is neither.
fn ending_at(s: &[u8], at: usize, line: usize) -> Result<Option<Recolour>, Unread>
    requires { (at ≤ length s.now) × (line ≤ 2 * most_bytes) }
    ensures { EndsAs s.now at line result }
{
    if s.len() <= at {
        return Ok(None);
    }
    let step = step_at(s, at);
    let Entry::Change(edit) = step.entry else {
        return Err(Unread { line });
    };
    if step.next < s.len() {
        return Err(Unread { line: line + 1 });
    }
    Ok(Some(edit))
}

// Reads the input, with the stops that are kept into what is lent.
pub fn read(
    s: &[u8],
    positions: &mut [f32; MOST_KEPT],
    channels: &mut [f32; 4 * MOST_KEPT],
) -> Result<Asked, Unread>
    ensures { Reads s.now (lent_output positions channels) result }
{
    if MOST_BYTES < s.len() {
        return Err(Unread { line: 0 });
    }
    if s.len() == 0 {
        return Err(Unread { line: 1 });
    }
    let step = step_at(s, 0);
    let Entry::Ramp(kind) = step.entry else {
        return Err(Unread { line: 1 });
    };
    let start = start_at(s, step.next);
    let block = stops_at(s, start.at, positions, channels);
    let edited = ending_at(s, block.at, start.line + block.stops)?;
    Ok(Asked {
        kind,
        threshold: start.threshold,
        stops: block.stops,
        edited,
    })
}
