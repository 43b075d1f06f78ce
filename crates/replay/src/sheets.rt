// Stored sheets: each is opened and then edited, refused turns among them.
use crate::lists::{RECORD, RUBBISH, Record};
use crate::ramps::kind_of;
use crate::turns;
use crate::words::{Stored, front};
use sheet::ListSort;
use stops::Kind;

// The most that is lent: twelve stops or segments, and room for four stops more.
const MOST_POSITIONS: usize = 3 * 12 + 4;

const MOST_CHANNELS: usize = 8 * 12 + 4 * 4;

const MOST_CODES: usize = 2 * 12 + 1;

fn list_sort(stored: &mut Stored) -> ListSort {
    let sort = stored.word();
    let hold = stored.float();
    if sort == 0 {
        ListSort::Thinned
    } else {
        ListSort::Within(hold)
    }
}

// A ramp with its room, turned with a record and outputs of the lengths that the next words say; a length for which there is
// no space tells nothing.
fn turned(
    stored: &mut Stored,
    kind: Kind,
    positions: &mut [f32],
    channels: &mut [f32],
    codes: &[u8],
) {
    let mut record = Record::new(RUBBISH);
    let mut places = [RUBBISH; RECORD + 1];
    let mut colours = [RUBBISH; 4 * (RECORD + 1)];
    let r = stored.count();
    let p = stored.count();
    if r > RECORD || p > RECORD + 1 {
        return;
    }
    let sort = list_sort(stored);
    turns::run(
        stored,
        kind,
        positions,
        channels,
        codes,
        sort,
        &mut record.rows[..r],
        &mut record.counts,
        &mut record.marks,
        &mut places[..p],
        &mut colours,
    );
}

// The next sheet; a ramp for which there is no space tells nothing.
pub fn run(stored: &mut Stored) {
    let mut positions = [0.0f32; MOST_POSITIONS];
    let mut channels = [0.0f32; MOST_CHANNELS];
    let mut codes = [0u8; MOST_CODES];
    let kind = kind_of(stored.word());
    let p = stored.count();
    let c = stored.count();
    let k = stored.count();
    stored.fill(&mut positions, p);
    stored.fill(&mut channels, c);
    stored.fill(&mut codes, k);
    if p <= MOST_POSITIONS && c <= MOST_CHANNELS {
        turned(
            stored,
            kind,
            &mut positions[..p],
            &mut channels[..c],
            front(&codes, k),
        );
    }
}
