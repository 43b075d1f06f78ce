// How much of the lent slices is the ramp, and whether a stop more has room.
ghost use Rattle.std.specs.Prelude.{◌≡◌, ◌≤◌};
ghost use Rattle.refusals.specs.Limits.{most_stops};
ghost use Rattle.sheet.specs.Room.{positions_for, channels_for, stops_fit, room_fits, fitted};

use refresh::editing::Edit;
use refusals::MOST_STOPS;
use stops::Kind;

// The positions of so many stops, or segments.
#[tactic(auto, unfolding(refusals::specs::Limits::most_stops))]
pub(crate) fn positions_of(kind: Kind, stops: usize) -> usize
    requires { stops ≤ most_stops }
    ensures { result ≡ positions_for kind stops }
{
    if gradient::is_gimp(kind) {
        3 * stops
    } else {
        stops
    }
}

// And their channels.
#[tactic(auto, unfolding(refusals::specs::Limits::most_stops))]
pub(crate) fn channels_of(kind: Kind, stops: usize) -> usize
    requires { stops ≤ most_stops }
    ensures { result ≡ channels_for kind stops }
{
    if gradient::is_gimp(kind) {
        8 * stops
    } else {
        4 * stops
    }
}

// Whether the lent slices hold so many stops.
#[tactic(auto, unfolding(crate::specs::Room::stops_fit, refusals::specs::Limits::most_stops))]
pub(crate) fn fits(kind: Kind, stops: usize, positions: usize, channels: usize) -> bool
    ensures { result ≡ stops_fit kind stops positions channels }
{
    stops <= MOST_STOPS
        && positions_of(kind, stops) <= positions
        && channels_of(kind, stops) <= channels
}

// Whether a stop more has room.
#[tactic(auto, unfolding(crate::specs::Room::room_fits, refusals::specs::Limits::most_stops))]
fn has_room(stops: usize, positions: usize, channels: usize) -> bool
    requires { stops ≤ most_stops }
    ensures { result ≡ room_fits stops positions channels }
{
    stops < positions && 4 * stops + 4 <= channels
}

// An edit; an addition for which there is no room is one of no place: 6 in its order.
pub(crate) fn with_room(edit: Edit, stops: usize, positions: usize, channels: usize) -> Edit
    requires { stops ≤ most_stops }
    ensures { result ≡ fitted stops positions channels edit }
{
    match edit {
        Edit::Add { .. } if !has_room(stops, positions, channels) => Edit::Remove { stop: 0 },
        _ => edit,
    }
}
