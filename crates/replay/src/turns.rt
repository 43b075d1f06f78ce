// The turns of a stored sheet: what each answers, and the edits, one after the other. After a turn its answer is compared, and
// the sums of the ramp with its room, of the record and of the list's outputs.
use crate::edits;
use crate::sums::{of_record, of_stops};
use crate::words::Stored;
use gradient::Ramp;
use sheet::{ListSort, SheetAnswer};
use stops::Kind;

// Which answer a turn has.
const DONE: u32 = 0;

const UNLISTED: u32 = 1;

const REFUSED: u32 = 2;

// Whether the answer is the next five words: which it is, the refusal, the stops of the ramp, those of the list, evaluations.
fn is_answer(stored: &mut Stored, answer: SheetAnswer) -> bool {
    let which = stored.word();
    let refusal = stored.word();
    let ramp = stored.count();
    let list = stored.count();
    let spent = stored.count();
    match answer {
        SheetAnswer::Done {
            stops,
            listed,
            evaluations,
        } => which == DONE && stops == ramp && listed == list && evaluations == spent,
        SheetAnswer::Unlisted { stops, number } => {
            which == UNLISTED && stops == ramp && u32::from(number) == refusal
        }
        SheetAnswer::Refused(number) => which == REFUSED && u32::from(number) == refusal,
    }
}

// The answer and the three sums, each an answer of its own.
fn compare(stored: &mut Stored, answer: SheetAnswer, ramp: u32, record: u32, list: u32) {
    let is_equal = is_answer(stored, answer);
    stored.compare(is_equal);
    for sum in [ramp, record, list] {
        let is_equal = stored.word() == sum;
        stored.compare(is_equal);
    }
}

// The opening, and as many edits as the next word says, each with its own number of stops and threshold. The lent slices come
// apart: a struct of `&mut`s, made once, is one more type, and each call below would still name its fields.
pub fn run(
    stored: &mut Stored,
    kind: Kind,
    positions: &mut [f32],
    channels: &mut [f32],
    codes: &[u8],
    sort: ListSort,
    rows: &mut [f32],
    counts: &mut [u8],
    marks: &mut [u32],
    places: &mut [f32],
    colours: &mut [f32],
) {
    let stops = stored.count();
    let threshold = stored.float();
    let lent = Ramp {
        positions,
        channels,
        codes,
        kind,
    };
    let opened = sheet::open(
        &lent, stops, threshold, sort, rows, counts, marks, places, colours,
    );
    let ramp = of_stops(positions, channels);
    let record = of_record(rows, counts, marks);
    compare(stored, opened, ramp, record, of_stops(places, colours));
    for _ in 0..stored.word() {
        let stops = stored.count();
        let threshold = stored.float();
        let edit = edits::next(stored);
        let edited = sheet::edit(
            kind, positions, channels, codes, stops, edit, threshold, sort, rows, counts, marks,
            places, colours,
        );
        let ramp = of_stops(positions, channels);
        let record = of_record(rows, counts, marks);
        compare(stored, edited, ramp, record, of_stops(places, colours));
    }
}
