// The sorts of edit by their codes.
ghost use Rattle.std.specs.Prelude.{◌≡◌};
ghost use Rattle.colorgrad_c.specs.plain.Edits.{edit_of};

use blend::Rgba;
use refresh::editing::Edit;

pub const COLOUR: u32 = 0;

pub const MOVE: u32 = 1;

pub const ADD: u32 = 2;

pub const REMOVE: u32 = 3;

// An edit by its parts, the channels of a colour among them, of which a sort takes those that it has. A code that names no
// sort is an edit of no place: 6 in its order.
#[tactic(auto, unfolding(crate::specs::plain::Edits::edit_of))]
pub(crate) fn edit_of(sort: u32, stop: usize, position: f32, r: f32, g: f32, b: f32, a: f32) -> Edit
    ensures { result ≡ edit_of sort stop position r g b a }
{
    let colour = Rgba { r, g, b, a };
    match sort {
        COLOUR => Edit::Colour { stop, colour },
        MOVE => Edit::Move { stop, position },
        ADD => Edit::Add {
            stop,
            position,
            colour,
        },
        REMOVE => Edit::Remove { stop },
        _ => Edit::Remove { stop: 0 },
    }
}
