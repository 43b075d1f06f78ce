// Stops lent as n positions and 4n channels: how they are read, their check, the place of t among them,
// and the colour there. No function asks anything of the slices: past an end is not-a-number.
#![tactic(auto)]

ghost use Rattle.std.specs.Prelude.{◌≡◌, ◌-◌};

pub mod between;
pub mod channels;
pub mod near;
pub mod rules;
pub mod search;
pub mod segments;

pub use crate::between::{colour_at, colour_in, left_of, right_of};
pub use crate::channels::{colour, item, stop};
pub use crate::rules::{check, is_finite_colour, is_steady};
pub use crate::search::{below, find_place};
use blend::Rgba;

// The kinds of ramp. Stops are n positions and 4n channels, with no codes. GIMP segments are 3n positions
// (left, middle, right), 8n channels (left, then right) and 2n codes (blending, colouring). `GimpSaved` takes every
// segment that GIMP saves, `Gimp` no curved ones.
#[derive(Clone, Copy, PartialEq, Eq)]
pub enum Kind {
    Linear,
    Smoothstep,
    Sharp,
    Basis,
    CatmullRom,
    Gimp,
    GimpSaved,
}

// A ramp that may be used, or the number of the refusal.
#[derive(Clone, Copy)]
pub enum Checked {
    Fine,
    Refused(u8),
}

// Where t lies among stops: at an end, whose stop it names, nowhere, or between stop k - 1 and stop k.
#[derive(Clone, Copy)]
pub enum Place {
    End(usize),
    Nowhere,
    Between(usize),
}

// The Catmull-Rom segments in hand: those of `count` pairs from `base` on stand first in a table.
#[derive(Clone, Copy)]
pub struct Window {
    pub base: usize,
    pub count: usize,
}

// The colour where a ramp has none.
pub const BLACK: Rgba = Rgba {
    r: 0.0,
    g: 0.0,
    b: 0.0,
    a: 1.0,
};

// One less, and 0 of 0.
pub fn less(i: usize) -> usize
    ensures { result ≡ i - 1 }
{
    i.saturating_sub(1)
}
