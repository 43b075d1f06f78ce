// The ramp with an edit made, in a copy: the lent ramp is not written.
ghost use Rattle.std.specs.Prelude.{◌≡◌, [], ◌∷◌, ◌+◌, ◌*◌, ◌≤◌, length};
ghost use Rattle.std.proofs.lemmas.List.Edits.{sets};
ghost use Rattle.refusals.specs.Limits.{most_stops};
ghost use Rattle.blend.specs.Channels.{channels_of};
ghost use Rattle.refresh.specs.editing.Edited.{spliced, stop_of, gone_of, positions_after, channels_after, stops_after};
ghost use Rattle.refresh.specs.editing.Copied.{copy_fits, Copies};

use crate::editing::Edit;
use crate::editing::rules::check;
use blend::Rgba;
use gradient::Ramp;
use refusals::{MISSHAPEN, MOST_STOPS};
use stops::Checked;

// What a copy answers: how many stops the ramp has now, or the number of the refusal.
#[derive(Clone, Copy)]
pub enum Copied {
    Stops(usize),
    Refused(u8),
}

// Stores all items from a place on.
fn copy_run(from: &[f32], to: &mut [f32], at: usize)
    requires { at + length from.now ≤ length to.old }
    ensures { to.new ≡ sets to.old at from.now }
{
    to[at..at + from.len()].copy_from_slice(from);
}

// Copies a list with `gone` items at a place left out and others put in there.
fn splice(from: &[f32], at: usize, gone: usize, items: &[f32], to: &mut [f32])
    requires { (at + gone ≤ length from.now) × (length from.now + length items.now ≤ length to.old) }
    ensures { to.new ≡ sets to.old 0 (spliced from.now at gone items.now) }
{
    copy_run(&from[..at], to, 0);
    copy_run(items, to, at);
    copy_run(&from[at + gone..], to, at + items.len());
}

// The same with the four channels of a colour put in.
fn splice_colour(channels: &[f32], at: usize, gone: usize, c: Rgba, to: &mut [f32])
    requires { (at + gone ≤ length channels.now) × (length channels.now + 4 ≤ length to.old) }
    ensures { to.new ≡ sets to.old 0 (spliced channels.now at gone (channels_of c)) }
{
    let items = [c.r, c.g, c.b, c.a];
    splice(channels, at, gone, &items, to);
}

// The same with one position put in.
fn splice_position(positions: &[f32], at: usize, gone: usize, p: f32, to: &mut [f32])
    requires { (at + gone ≤ length positions.now) × (length positions.now + 1 ≤ length to.old) }
    ensures { to.new ≡ sets to.old 0 (spliced positions.now at gone (p ∷ [])) }
{
    let items = [p];
    splice(positions, at, gone, &items, to);
}

fn copy_positions(positions: &[f32], edit: Edit, to: &mut [f32])
    requires { (stop_of edit + gone_of edit ≤ length positions.now) × (length positions.now + 1 ≤ length to.old) }
    ensures { to.new ≡ sets to.old 0 (positions_after positions.now edit) }
{
    match edit {
        Edit::Colour { .. } => copy_run(positions, to, 0),
        Edit::Move { stop, position } => splice_position(positions, stop, 1, position, to),
        Edit::Add { stop, position, .. } => splice_position(positions, stop, 0, position, to),
        Edit::Remove { stop } => splice(positions, stop, 1, &positions[..0], to),
    }
}

fn copy_channels(channels: &[f32], edit: Edit, to: &mut [f32])
    requires { (4 * stop_of edit + 4 * gone_of edit ≤ length channels.now) × (length channels.now + 4 ≤ length to.old) }
    ensures { to.new ≡ sets to.old 0 (channels_after channels.now edit) }
{
    match edit {
        Edit::Colour { stop, colour } => splice_colour(channels, 4 * stop, 4, colour, to),
        Edit::Move { .. } => copy_run(channels, to, 0),
        Edit::Add { stop, colour, .. } => splice_colour(channels, 4 * stop, 0, colour, to),
        Edit::Remove { stop } => splice(channels, 4 * stop, 4, &channels[..0], to),
    }
}

// How many stops n become.
#[tactic(auto, unfolding(refusals::specs::Limits::most_stops))]
fn stops_after(n: usize, edit: Edit) -> usize
    requires { (stop_of edit + gone_of edit ≤ n) × (n ≤ most_stops) }
    ensures { result ≡ stops_after n edit }
{
    match edit {
        Edit::Colour { .. } | Edit::Move { .. } => n,
        Edit::Add { .. } => n + 1,
        Edit::Remove { .. } => n - 1,
    }
}

// Whether there are four channels a stop, and room for one stop more.
#[tactic(auto, unfolding(crate::specs::editing::Copied::copy_fits, refusals::specs::Limits::most_stops))]
fn copy_fits(n: usize, channels: usize, places: usize, colours: usize) -> bool
    ensures { result ≡ copy_fits n channels places colours }
{
    n <= MOST_STOPS && channels == 4 * n && n < places && channels + 4 <= colours
}

// Writes the positions and the channels of the ramp with the edit made, and tells how many stops it has. A refusal writes
// nothing.
pub fn copy(ramp: &Ramp<'_>, edit: Edit, places: &mut [f32], colours: &mut [f32]) -> Copied
    ensures { Copies ramp.now.kind ramp.now.positions.now ramp.now.channels.now edit places.old colours.old places.new colours.new result }
{
    match check(ramp.kind, ramp.positions, edit) {
        Checked::Refused(number) => Copied::Refused(number),
        Checked::Fine => {
            let n = ramp.positions.len();
            if !copy_fits(n, ramp.channels.len(), places.len(), colours.len()) {
                return Copied::Refused(MISSHAPEN);
            }
            copy_positions(ramp.positions, edit, places);
            copy_channels(ramp.channels, edit, colours);
            Copied::Stops(stops_after(n, edit))
        }
    }
}
