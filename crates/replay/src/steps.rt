// Stored lists one stop at a time: each stop with the evaluations of its step, then that nothing more comes, twice.
use crate::lists::Record;
use crate::words::Stored;
use gradient::Ramp;
use next_stop::{Handed, ListPlace, Told};

// Whether the next six words are what is handed out: position, channels, evaluations. Where no stop is told, it has no numbers.
fn is_stop(stored: &mut Stored, handed: Handed) -> bool {
    let numbers = match handed.told {
        Told::Stop(stop) => {
            let c = stop.colour;
            [stop.position, c.r, c.g, c.b, c.a]
        }
        Told::Ended | Told::Refused(_) => [f32::NAN; 5],
    };
    let is_told = stored.are(&numbers, 5);
    let evaluations = stored.count();
    is_told && handed.evaluations == evaluations
}

fn is_ended(handed: Handed) -> bool {
    matches!(handed.told, Told::Ended) && handed.evaluations == 0
}

// As many steps from the start as the next word says, and two more. The record is sampled here.
pub fn answers(stored: &mut Stored, ramp: Ramp) {
    let mut record = Record::new(0.0);
    let threshold = stored.float();
    linearize::sample(
        &ramp,
        threshold,
        &mut record.rows,
        &mut record.counts,
        &mut record.marks,
    );
    let step = |place| {
        next_stop::next_stop(
            &ramp,
            threshold,
            &record.rows,
            &record.counts,
            &record.marks,
            place,
        )
    };
    let mut place = ListPlace::Start;
    for _ in 0..stored.word() {
        let handed = step(place);
        place = handed.place;
        let is_equal = is_stop(stored, handed);
        stored.compare(is_equal);
    }
    for _ in 0..2 {
        let handed = step(place);
        place = handed.place;
        stored.compare(is_ended(handed));
    }
}
