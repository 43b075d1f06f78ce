// Stored lists: of a ramp, of a record, and of a ramp after an edit.
use crate::edits;
use crate::words::Stored;
use gradient::Ramp;
use linearize::{Listed, Sampler};

pub const RECORD: usize = Sampler::CELLS * Sampler::ROW;

// How a record and outputs are lent: in full, a record too short, outputs for two stops.
const SHORT_RECORD: u32 = 1;

pub const SMALL_ROOM: u32 = 2;

// The length of a record that is too short, and of outputs for two stops.
pub const FEW: usize = 2;

// What stands in lent memory before a call, so that what stays and what is set to zero both show.
pub const RUBBISH: f32 = 7.5;

// A record of the length that the calls ask.
#[derive(Drop)]
pub struct Record {
    pub rows: [f32; RECORD],
    pub counts: [u8; Sampler::CELLS],
    pub marks: [u32; Sampler::MARKS],
}

impl Record {
    // Rows of one number, and zeros.
    pub fn new(x: f32) -> Record {
        Record {
            rows: [x; RECORD],
            counts: [0; Sampler::CELLS],
            marks: [0; Sampler::MARKS],
        }
    }

    // Stored points, counts and words, zero elsewhere.
    pub fn read(stored: &mut Stored) -> Record {
        let mut record = Record::new(0.0);
        stored.scatter(&mut record.rows);
        stored.fill(&mut record.counts, Sampler::CELLS);
        stored.fill(&mut record.marks, Sampler::MARKS);
        record
    }
}

// Whether the answer is the next three words: refusal, stops, evaluations.
fn is_answer(stored: &mut Stored, made: Listed) -> bool {
    let refusal = stored.word();
    let listed = stored.count();
    let spent = stored.count();
    match made {
        Listed::Refused(n) => u32::from(n) == refusal,
        Listed::Done { stops, evaluations } => {
            refusal == 0 && stops == listed && evaluations == spent
        }
    }
}

// The answer, the positions and the channels, each an answer of its own.
pub fn compare(stored: &mut Stored, made: Listed, places: &[f32], colours: &[f32]) {
    let is_equal = is_answer(stored, made);
    stored.compare(is_equal);
    stored.compare_all(places);
    stored.compare_all(colours);
}

// With the room that the word after the threshold says.
pub fn flattened(stored: &mut Stored, ramp: Ramp) {
    let mut record = Record::new(RUBBISH);
    let mut places = [RUBBISH; RECORD + 1];
    let mut colours = [RUBBISH; 4 * (RECORD + 1)];
    let threshold = stored.float();
    let room = stored.word();
    let rows = if room == SHORT_RECORD { FEW } else { RECORD };
    let outputs = if room == SMALL_ROOM { FEW } else { RECORD + 1 };
    let made = linearize::flatten(
        &ramp,
        threshold,
        &mut record.rows[..rows],
        &mut record.counts,
        &mut record.marks,
        &mut places[..outputs],
        &mut colours,
    );
    compare(stored, made, &places[..outputs], &colours);
}

// A stored record.
pub fn thinned(stored: &mut Stored, ramp: Ramp) {
    let mut places = [RUBBISH; RECORD + 1];
    let mut colours = [RUBBISH; 4 * (RECORD + 1)];
    let threshold = stored.float();
    let record = Record::read(stored);
    let made = linearize::thin(
        &ramp,
        threshold,
        &record.rows,
        &record.counts,
        &record.marks,
        &mut places,
        &mut colours,
    );
    compare(stored, made, &places, &colours);
}

// With the room that the word after the threshold says. The record is sampled of the ramp as it was, then refreshed.
pub fn refreshed(stored: &mut Stored, ramp: Ramp) {
    let mut record = Record::new(RUBBISH);
    let mut places = [RUBBISH; RECORD + 1];
    let mut colours = [RUBBISH; 4 * (RECORD + 1)];
    let threshold = stored.float();
    let room = stored.word();
    let edit = edits::next(stored);
    let rows = if room == SHORT_RECORD { FEW } else { RECORD };
    linearize::sample(
        &ramp,
        threshold,
        &mut record.rows[..rows],
        &mut record.counts,
        &mut record.marks,
    );
    let made = refresh::refresh_list(
        &ramp,
        edit,
        threshold,
        &mut record.rows[..rows],
        &mut record.counts,
        &mut record.marks,
        &mut places,
        &mut colours,
    );
    compare(stored, made, &places, &colours);
}
