// An edit of a ramp: what it is, the stretch that it reaches and the cells that it leaves as they are.
ghost use Rattle.std.specs.Prelude.{◌≡◌, ◌+◌, ◌-◌};
ghost use Rattle.refresh.specs.reach.Stretch.{stretch_between};
ghost use Rattle.refresh.specs.editing.Reached.{stretch_of, cells_kept};

use crate::reach::kept_cells;
use crate::reach::stretch::{Stretch, colour_stretch, stretch_between};
use blend::Rgba;
use gradient::Ramp;
use stops::Kind;

pub mod copy;
pub mod rules;

// A stop is given a colour or a position, or one is added, whose stop is the index that it gets, or one is removed.
#[derive(Clone, Copy)]
pub enum Edit {
    Colour {
        stop: usize,
        colour: Rgba,
    },
    Move {
        stop: usize,
        position: f32,
    },
    Add {
        stop: usize,
        position: f32,
        colour: Rgba,
    },
    Remove {
        stop: usize,
    },
}

// The stretch from the stop before stop k to the one after it. Past the last stop neither stands.
#[tactic(auto, unfolding(crate::specs::reach::Stretch::stretch_between))]
fn stretch_beside(positions: &[f32], k: usize) -> Stretch
    ensures { result ≡ stretch_between positions.now (k - 1) (k + 1) }
{
    stretch_between(positions, k.saturating_sub(1), k.saturating_add(1))
}

// The stretch that an edit reaches.
pub(crate) fn stretch_of(kind: Kind, positions: &[f32], edit: Edit) -> Stretch
    ensures { result ≡ stretch_of kind positions.now edit }
{
    match edit {
        Edit::Colour { stop, .. } => colour_stretch(kind, positions, stop),
        Edit::Move { stop, .. } | Edit::Remove { stop } => stretch_beside(positions, stop),
        Edit::Add { stop, .. } => stretch_between(positions, stop.saturating_sub(1), stop),
    }
}

// The cells that an edit leaves as they are.
#[tactic(auto, unfolding(crate::specs::editing::Reached::cells_kept))]
pub fn kept(ramp: &Ramp<'_>, edit: Edit) -> [bool; 36]
    ensures { result ≡ cells_kept ramp.now.kind ramp.now.positions.now edit }
{
    let min = ramp.min();
    let max = ramp.max();
    let s = stretch_of(ramp.kind, ramp.positions, edit);
    kept_cells(min, max, s)
}
