// Stored lists as GIMP files: the refusal, or 0, and how many bytes; and the start of the output.
use crate::words::{Stored, front};
use ggr_writing::WriteAnswer;

const MOST_STOPS: usize = 16;

const MOST_BYTES: usize = 2000;

// What stands in the output before the call.
const RUBBISH: u8 = 7;

// Whether the answer is the next two words: refusal, bytes.
fn is_answer(stored: &mut Stored, answer: WriteAnswer) -> bool {
    let refusal = stored.word();
    let bytes = stored.count();
    match answer {
        WriteAnswer::Refused(n) => u32::from(n) == refusal,
        WriteAnswer::Written(n) => refusal == 0 && n == bytes,
    }
}

// The next list, written into the first `room` bytes or into all of them; the answer and the output, each an answer of its own.
pub fn run(stored: &mut Stored) {
    let mut positions = [0.0f32; MOST_STOPS];
    let mut channels = [0.0f32; 4 * MOST_STOPS];
    let mut text = [RUBBISH; MOST_BYTES];
    let p = stored.count();
    let c = stored.count();
    let room = stored.count().min(MOST_BYTES);
    stored.fill(&mut positions, p);
    stored.fill(&mut channels, c);
    let answer = ggr_writing::write(front(&positions, p), front(&channels, c), &mut text[..room]);
    let is_equal = is_answer(stored, answer);
    stored.compare(is_equal);
    stored.compare_all(&text);
}
