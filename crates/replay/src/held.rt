// Stored lists that keep their word: of a ramp that is sampled afresh, and of any record.
use crate::lists::{FEW, RECORD, RUBBISH, Record, SMALL_ROOM, compare};
use crate::words::Stored;
use gradient::Ramp;

// In full.
pub fn flattened(stored: &mut Stored, ramp: Ramp) {
    let mut record = Record::new(RUBBISH);
    let mut places = [RUBBISH; RECORD + 1];
    let mut colours = [RUBBISH; 4 * (RECORD + 1)];
    let threshold = stored.float();
    let hold = stored.float();
    let made = within::flatten_within(
        &ramp,
        threshold,
        hold,
        &mut record.rows,
        &mut record.counts,
        &mut record.marks,
        &mut places,
        &mut colours,
    );
    compare(stored, made, &places, &colours);
}

// A stored record, with the room that the first word says.
pub fn thinned(stored: &mut Stored, ramp: Ramp) {
    let mut places = [RUBBISH; RECORD + 1];
    let mut colours = [RUBBISH; 4 * (RECORD + 1)];
    let room = stored.word();
    let outputs = if room == SMALL_ROOM { FEW } else { RECORD + 1 };
    let threshold = stored.float();
    let hold = stored.float();
    let record = Record::read(stored);
    let made = within::thin_within(
        &ramp,
        threshold,
        hold,
        &record.rows,
        &record.counts,
        &record.marks,
        &mut places[..outputs],
        &mut colours,
    );
    compare(stored, made, &places[..outputs], &colours);
}
