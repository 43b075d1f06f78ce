// Colour ramps lent as slices: their check, and their colour at t.
#![tactic(auto)]

ghost use Rattle.std.specs.Prelude.{◌≡◌};
ghost use Rattle.gradient.specs.Lent.{lent_ramp};
ghost use Rattle.stops.specs.Answers.{Checks};
ghost use Rattle.gradient.specs.Ramp.{is_gimp, check_of, any_colour, min_of, max_of};

use blend::Rgba;
use stops::{Checked, Kind};

pub mod blending;
pub mod carried;
pub mod gimp;
pub mod hued;

pub fn is_gimp(kind: Kind) -> bool
    ensures { result ≡ is_gimp kind }
{
    matches!(kind, Kind::Gimp | Kind::GimpSaved)
}

// A ramp, lent: its stops or its segments, and its kind.
#[derive(Clone, Copy)]
pub struct Ramp<'a> {
    pub positions: &'a [f32],
    pub channels: &'a [f32],
    pub codes: &'a [u8],
    pub kind: Kind,
}

impl Ramp<'_> {
    // Refusals 1, then stop by stop 2 and 3.
    pub fn check(&self) -> Checked
        ensures { Checks (check_of (lent_ramp self.now)) result }
    {
        if is_gimp(self.kind) {
            gimp::check(self.kind, self.positions, self.channels, self.codes)
        } else {
            stops::check(self.kind, self.positions, self.channels, self.codes)
        }
    }

    // The ends of its domain.
    pub fn min(&self) -> f32
        ensures { result ≡ min_of (lent_ramp self.now) }
    {
        if is_gimp(self.kind) {
            0.0
        } else {
            stops::item(self.positions, 0)
        }
    }

    pub fn max(&self) -> f32
        ensures { result ≡ max_of (lent_ramp self.now) }
    {
        if is_gimp(self.kind) {
            1.0
        } else {
            stops::item(self.positions, stops::less(self.positions.len()))
        }
    }

    // The colour at t of any slices at all; of a ramp that passes the check, the document's colour.
    pub fn colour_at(&self, t: f32) -> Rgba
        ensures { result ≡ any_colour (lent_ramp self.now) t }
    {
        if is_gimp(self.kind) {
            gimp::colour_at(self.positions, self.channels, self.codes, t)
        } else {
            stops::colour_at(self.kind, self.positions, self.channels, t)
        }
    }
}
