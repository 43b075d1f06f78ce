// Whether an edit may be made: refusal 6, then 1, then 3.
ghost use Rattle.std.specs.Prelude.{◌≡◌};
ghost use Rattle.stops.specs.Answers.{Checks};
ghost use Rattle.refresh.specs.editing.Rules.{refreshable, movable, is_inner, is_next, order_check, edit_allowed};
ghost use Rattle.refresh.specs.declared.editing.Edit.TheVariants.{Colour, Move, Add, Remove};

use crate::editing::Edit;
use blend::Rgba;
use refusals::{BAD_EDIT, FALLING, MISSHAPEN, MOST_STOPS};
use stops::{Checked, Kind, is_finite_colour, item};

fn is_refreshable(kind: Kind) -> bool
    ensures { result ≡ refreshable kind }
{
    matches!(
        kind,
        Kind::Linear | Kind::Smoothstep | Kind::Basis | Kind::CatmullRom
    )
}

fn is_movable(kind: Kind) -> bool
    ensures { result ≡ movable kind }
{
    matches!(kind, Kind::Linear | Kind::Smoothstep)
}

// Whether stop k of n is neither the first nor the last.
#[tactic(auto, unfolding(crate::specs::editing::Rules::is_inner))]
fn is_inner(n: usize, k: usize) -> bool
    ensures { result ≡ is_inner n k }
{
    k != 0 && k < n.saturating_sub(1)
}

// Whether place k of n stops is between two of them.
#[tactic(auto, unfolding(crate::specs::editing::Rules::is_next))]
fn is_next(n: usize, k: usize) -> bool
    ensures { result ≡ is_next n k }
{
    0 < k && k < n
}

// Refusal 3 of a position between stops i and j.
#[tactic(auto, unfolding(crate::specs::editing::Rules::order_check))]
fn check_order(positions: &[f32], i: usize, j: usize, p: f32) -> Checked
    ensures { result ≡ order_check positions.now i j p }
{
    if p < item(positions, i) || item(positions, j) < p {
        Checked::Refused(FALLING)
    } else {
        Checked::Fine
    }
}

#[tactic(auto, unfolding(crate::specs::editing::Rules::edit_allowed))]
fn check_colour(kind: Kind, positions: &[f32], stop: usize, colour: Rgba) -> Checked
    ensures { result ≡ edit_allowed kind positions.now (Colour stop colour) }
{
    if is_refreshable(kind) && stop < positions.len() && is_finite_colour(colour) {
        Checked::Fine
    } else {
        Checked::Refused(BAD_EDIT)
    }
}

#[tactic(auto, unfolding(crate::specs::editing::Rules::edit_allowed, crate::specs::editing::Rules::is_inner))]
fn check_move(kind: Kind, positions: &[f32], stop: usize, position: f32) -> Checked
    ensures { result ≡ edit_allowed kind positions.now (Move stop position) }
{
    if is_movable(kind) && is_inner(positions.len(), stop) && float::is_finite(position) {
        check_order(positions, stop - 1, stop + 1, position)
    } else {
        Checked::Refused(BAD_EDIT)
    }
}

#[tactic(auto, unfolding(crate::specs::editing::Rules::edit_allowed, crate::specs::editing::Rules::is_next, refusals::specs::Limits::most_stops))]
fn check_add(kind: Kind, positions: &[f32], stop: usize, position: f32, colour: Rgba) -> Checked
    ensures { result ≡ edit_allowed kind positions.now (Add stop position colour) }
{
    if !(is_movable(kind)
        && is_next(positions.len(), stop)
        && float::is_finite(position)
        && is_finite_colour(colour))
    {
        return Checked::Refused(BAD_EDIT);
    }
    if MOST_STOPS <= positions.len() {
        return Checked::Refused(MISSHAPEN);
    }
    check_order(positions, stop - 1, stop, position)
}

#[tactic(auto, unfolding(crate::specs::editing::Rules::edit_allowed))]
fn check_remove(kind: Kind, positions: &[f32], stop: usize) -> Checked
    ensures { result ≡ edit_allowed kind positions.now (Remove stop) }
{
    if is_movable(kind) && is_inner(positions.len(), stop) {
        Checked::Fine
    } else {
        Checked::Refused(BAD_EDIT)
    }
}

// The refusals of an edit of a ramp that is fine.
pub(crate) fn check(kind: Kind, positions: &[f32], edit: Edit) -> Checked
    ensures { Checks (edit_allowed kind positions.now edit) result }
{
    match edit {
        Edit::Colour { stop, colour } => check_colour(kind, positions, stop, colour),
        Edit::Move { stop, position } => check_move(kind, positions, stop, position),
        Edit::Add {
            stop,
            position,
            colour,
        } => check_add(kind, positions, stop, position, colour),
        Edit::Remove { stop } => check_remove(kind, positions, stop),
    }
}
