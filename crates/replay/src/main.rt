// Runs the answers that `compare/` stored, and counts those that are equal here: the published Rust's, of sheets those of a fresh
// flattening after each edit, and of what the Rust has not got those that were worked out from document 02, and from the rule of
// lists that keep their word.
#![tactic(auto)]

use std::io;
use streams::{StandardInput, StandardOutput};
use words::Stored;

mod bands;
mod colours;
mod edits;
mod held;
mod lists;
mod ramps;
mod sheets;
mod steps;
mod sums;
mod texts;
mod turns;
mod verdicts;
mod words;
mod written;

// How many answers were compared, and how many of them were equal.
#[derive(Clone, Copy)]
pub struct Tally {
    pub asked: u64,
    pub equal: u64,
}

impl Tally {
    // Before the first answer.
    pub const NONE: Tally = Tally { asked: 0, equal: 0 };

    pub fn with(self, is_equal: bool) -> Tally {
        Tally {
            asked: self.asked.wrapping_add(1),
            equal: self.equal.wrapping_add(u64::from(is_equal)),
        }
    }
}

impl Stored {
    // As many records of one sort as the next word says, each compared by `one`; what they answered is one line.
    fn records<F: Fn(&mut Stored)>(&mut self, out: &mut StandardOutput, name: &str, one: F)
        requires { F.IsAlwaysCallable one }
    {
        self.tally = Tally::NONE;
        for _ in 0..self.word() {
            one(self);
        }
        let Tally { asked, equal } = self.tally;
        writeln!(out, "{name} {asked} equal {equal}");
    }
}

fn main(rt: HostRuntime) -> io::Result<()> {
    let mut stored = Stored::new(StandardInput::new(rt.stdin()));
    let mut out = StandardOutput::new(rt.stdout());
    stored.records(&mut out, "colours", |s| ramps::run(s, colours::answers));
    stored.records(&mut out, "lists", |s| ramps::run(s, lists::flattened));
    stored.records(&mut out, "thinned", |s| ramps::run(s, lists::thinned));
    stored.records(&mut out, "refreshed", |s| ramps::run(s, lists::refreshed));
    stored.records(&mut out, "texts", texts::run);
    stored.records(&mut out, "sharp", bands::run);
    stored.records(&mut out, "within", |s| ramps::run(s, held::flattened));
    stored.records(&mut out, "stale", |s| ramps::run(s, held::thinned));
    stored.records(&mut out, "sheets", sheets::run);
    stored.records(&mut out, "waves", |s| ramps::run(s, colours::answers));
    stored.records(&mut out, "written", written::run);
    stored.records(&mut out, "verdicts", |s| ramps::run(s, verdicts::answers));
    stored.records(&mut out, "steps", |s| ramps::run(s, steps::answers));
    stored.end()?;
    out.end()
}
