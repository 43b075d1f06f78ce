// The calls that make a list, and the reply that tells of it.
ghost use Rattle.std.specs.Prelude.{◌≡◌, ◌≤◌};
ghost use Rattle.linearize.specs.Desk.{stops_of_listed};
ghost use Rattle.desk.specs.Tool.{list_room, fresh_text, edit_text, ramp_text, blank};
ghost use Rattle.desk.specs.inner.Steps.{stop_ramp, reply_of, Says, Room};

use entries::Recolour;
use gradient::Ramp;
use linearize::{Listed, Sampled, Sampler};
use refresh::editing::Edit;
use stops::Kind;
use writing::Reply;

// The stops that a list has room for.
pub(crate) const ROOM: usize = 1000;

fn reply_of(made: Listed) -> Reply
    requires { stops_of_listed made ≤ list_room }
    ensures { result ≡ reply_of made }
{
    match made {
        Listed::Refused(number) => Reply::Refused(number),
        Listed::Done { stops, evaluations } => Reply::Made {
            stops: stops as u32,
            evaluations,
        },
    }
}

// Without an edit. The record is this function's own.
fn fresh(
    kind: Kind,
    positions: &[f32],
    channels: &[f32],
    threshold: f32,
    places: &mut [f32],
    colours: &mut [f32],
) -> Reply
    requires { Room places.old colours.old }
    ensures { Says (fresh_text (stop_ramp kind positions channels) threshold blank) result places.new colours.new }
{
    let mut rows = [0.0f32; Sampler::CELLS * Sampler::ROW];
    let mut counts = [0u8; Sampler::CELLS];
    let mut marks = [0u32; Sampler::MARKS];
    let ramp = Ramp {
        positions,
        channels,
        codes: b"",
        kind,
    };
    let made = linearize::flatten(
        &ramp,
        threshold,
        &mut rows,
        &mut counts,
        &mut marks,
        places,
        colours,
    );
    reply_of(made)
}

// With an edit: the ramp as it was is sampled first.
fn edited_list(
    kind: Kind,
    positions: &[f32],
    channels: &[f32],
    threshold: f32,
    edit: Edit,
    places: &mut [f32],
    colours: &mut [f32],
) -> Reply
    requires { Room places.old colours.old }
    ensures { Says (edit_text (stop_ramp kind positions channels) edit threshold blank) result places.new colours.new }
{
    let mut rows = [0.0f32; Sampler::CELLS * Sampler::ROW];
    let mut counts = [0u8; Sampler::CELLS];
    let mut marks = [0u32; Sampler::MARKS];
    let ramp = Ramp {
        positions,
        channels,
        codes: b"",
        kind,
    };
    match linearize::sample(&ramp, threshold, &mut rows, &mut counts, &mut marks) {
        Sampled::Refused(number) => Reply::Refused(number),
        Sampled::Done(n) => {
            let made = refresh::refresh_list(
                &ramp,
                edit,
                threshold,
                &mut rows,
                &mut counts,
                &mut marks,
                places,
                colours,
            );
            reply_of(linearize::after(n, made))
        }
    }
}

// The list of a ramp of stops, in what is lent, and what there is to say of it.
pub(crate) fn list_of(
    kind: Kind,
    threshold: f32,
    edited: Option<Recolour>,
    positions: &[f32],
    channels: &[f32],
    places: &mut [f32],
    colours: &mut [f32],
) -> Reply
    requires { Room places.old colours.old }
    ensures { Says (ramp_text (stop_ramp kind positions channels) threshold edited) result places.new colours.new }
{
    match edited {
        None => fresh(kind, positions, channels, threshold, places, colours),
        Some(change) => {
            let stop = change.stop;
            let colour = change.colour;
            let edit = Edit::Colour { stop, colour };
            edited_list(kind, positions, channels, threshold, edit, places, colours)
        }
    }
}
