// Refreshing a record after an edit of its ramp: a cell clear of the change keeps what it holds, any other is sampled anew.
#![tactic(auto)]

ghost use Rattle.std.specs.Prelude.{◌≡◌, ◌+◌, ◌*◌, length};
ghost use Rattle.refusals.specs.Limits.{most_stops};
ghost use Rattle.sampling.specs.Lent.{lent_held, shared_held};
ghost use Rattle.linearize.specs.Lent.{lent_output};
ghost use Rattle.refresh.specs.RefreshDesk.{Refreshes, RefreshLists};
ghost use Rattle.refresh.specs.inner.Prepared.{Prepares};
ghost use Rattle.gradient.specs.Lent.{lent_ramp};

use crate::editing::copy::{Copied, copy};
use crate::editing::{Edit, kept};
use gradient::Ramp;
use linearize::{Listed, Sampled, relist};
use records::check_thin;
use refusals::MOST_STOPS;
use sampling::resample;
use stops::Checked;

pub mod editing;
pub mod reach;

// Checks what a refresh is given, and copies the ramp with the edit made into arrays with room for one stop more.
fn check_and_copy(
    ramp: &Ramp<'_>,
    edit: Edit,
    threshold: f32,
    rows: &[f32],
    counts: &[u8],
    marks: &[u32],
    places: &mut [f32],
    colours: &mut [f32],
) -> Copied
    requires { (length places.old ≡ most_stops + 1) × (length colours.old ≡ 4 * (most_stops + 1)) }
    ensures { Prepares (lent_ramp ramp.now) edit threshold (shared_held rows counts marks) (lent_output places colours) result }
{
    match check_thin(ramp, threshold, rows, counts, marks) {
        Checked::Refused(n) => Copied::Refused(n),
        Checked::Fine => copy(ramp, edit, places, colours),
    }
}

// Refreshes the lent record after an edit of the lent ramp; the ramp itself is not written, and the record's words stay: they
// are this call's own, or it is refused. A refusal leaves the record as it was.
pub fn refresh(
    ramp: &Ramp<'_>,
    edit: Edit,
    threshold: f32,
    rows: &mut [f32],
    counts: &mut [u8],
    marks: &mut [u32],
) -> Sampled
    ensures { Refreshes (lent_ramp ramp.now) edit threshold (lent_held rows counts marks) result }
{
    let mut copied_positions = [0.0f32; MOST_STOPS + 1];
    let mut copied_channels = [0.0f32; 4 * (MOST_STOPS + 1)];
    match check_and_copy(
        ramp,
        edit,
        threshold,
        rows,
        counts,
        marks,
        &mut copied_positions,
        &mut copied_channels,
    ) {
        Copied::Refused(n) => Sampled::Refused(n),
        Copied::Stops(n) => {
            let m = 4 * n;
            let keep = kept(ramp, edit);
            let changed = Ramp {
                positions: &copied_positions[..n],
                channels: &copied_channels[..m],
                codes: ramp.codes,
                kind: ramp.kind,
            };
            resample(&changed, threshold, keep, rows, counts, marks)
        }
    }
}

// Refreshes the lent record, then makes the list of its points from the changed ramp. Refusals 1 to 6 and 20 leave
// all as it was; after 7 to 9 the record is refreshed and the outputs are zero. One function for both calls over what follows
// the copy would take all these parameters, and a closure of six to which the record is lent again.
pub fn refresh_list(
    ramp: &Ramp<'_>,
    edit: Edit,
    threshold: f32,
    rows: &mut [f32],
    counts: &mut [u8],
    marks: &mut [u32],
    places: &mut [f32],
    colours: &mut [f32],
) -> Listed
    ensures { RefreshLists (lent_ramp ramp.now) edit threshold (lent_held rows counts marks) (lent_output places colours) result }
{
    let mut copied_positions = [0.0f32; MOST_STOPS + 1];
    let mut copied_channels = [0.0f32; 4 * (MOST_STOPS + 1)];
    match check_and_copy(
        ramp,
        edit,
        threshold,
        rows,
        counts,
        marks,
        &mut copied_positions,
        &mut copied_channels,
    ) {
        Copied::Refused(n) => Listed::Refused(n),
        Copied::Stops(n) => {
            let m = 4 * n;
            let changed = Ramp {
                positions: &copied_positions[..n],
                channels: &copied_channels[..m],
                codes: ramp.codes,
                kind: ramp.kind,
            };
            relist(
                &changed,
                threshold,
                kept(ramp, edit),
                rows,
                counts,
                marks,
                places,
                colours,
            )
        }
    }
}
