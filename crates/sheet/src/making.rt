// An edit made in place: what lies past the ramp stays as it was.
ghost use Rattle.std.specs.Prelude.{◌≡◌, [], ◌∷◌, ◌+◌, ◌*◌, ◌≤◌, length, take};
ghost use Rattle.std.proofs.lemmas.List.Edits.{sets};
ghost use Rattle.blend.specs.Channels.{channels_of};
ghost use Rattle.refresh.specs.editing.Edited.{spliced};
ghost use Rattle.sheet.specs.inner.Making.{MayMake, Makes};

use blend::Rgba;
use refresh::editing::Edit;
use slices::put;
use stops::channels::put_colour;

// Puts a stop more into a ramp of so many.
fn insert(positions: &mut [f32], channels: &mut [f32], stops: usize, k: usize, p: f32, c: Rgba)
    requires { (k ≤ stops) × ((stops + 1 ≤ length positions.old) × (4 * stops + 4 ≤ length channels.old)) }
    ensures positions_value { positions.new ≡ sets positions.old 0 (spliced (take stops positions.old) k 0 (p ∷ [])) }
    ensures channels_value { channels.new ≡ sets channels.old 0 (spliced (take (4 * stops) channels.old) (4 * k) 0 (channels_of c)) }
{
    positions.copy_within(k..stops, k + 1);
    put(positions, k, p);
    channels.copy_within(4 * k..4 * stops, 4 * k + 4);
    put_colour(channels, 4 * k, c);
}

// Takes a stop out of a ramp of so many.
fn remove(positions: &mut [f32], channels: &mut [f32], stops: usize, k: usize)
    requires { (k + 1 ≤ stops) × ((stops ≤ length positions.old) × (4 * stops ≤ length channels.old)) }
    ensures positions_value { positions.new ≡ sets positions.old 0 (spliced (take stops positions.old) k 1 []) }
    ensures channels_value { channels.new ≡ sets channels.old 0 (spliced (take (4 * stops) channels.old) (4 * k) 4 []) }
{
    positions.copy_within(k + 1..stops, k);
    channels.copy_within(4 * k + 4..4 * stops, 4 * k);
}

// Makes an edit in a ramp of so many stops, and tells how many it has then.
pub(crate) fn make(positions: &mut [f32], channels: &mut [f32], stops: usize, edit: Edit) -> usize
    requires { MayMake positions.old channels.old stops edit }
    ensures { Makes positions.old channels.old stops edit positions.new channels.new result }
{
    match edit {
        Edit::Colour { stop, colour } => {
            put_colour(channels, 4 * stop, colour);
            stops
        }
        Edit::Move { stop, position } => {
            put(positions, stop, position);
            stops
        }
        Edit::Add {
            stop,
            position,
            colour,
        } => {
            insert(positions, channels, stops, stop, position, colour);
            stops + 1
        }
        Edit::Remove { stop } => {
            remove(positions, channels, stops, stop);
            stops - 1
        }
    }
}
