// Stored GIMP texts: the refusal and its line, or 0 and the segments; and the name.
use crate::words::{Stored, front};
use ggr::Answer;

const MOST_BYTES: usize = 4096;

const MOST_SEGMENTS: usize = 256;

// Whether the answer is the next three words: refusal, line, segments.
fn is_answer(stored: &mut Stored, answer: Answer) -> bool {
    let refusal = stored.word();
    let line = stored.count();
    let segments = stored.count();
    match answer {
        Answer::Refused(n, at) => u32::from(n) == refusal && at == line,
        Answer::Read(n) => refusal == 0 && n == segments,
    }
}

// The answer, the three outputs, the name and its length, each an answer of its own.
fn answers(stored: &mut Stored, text: &[u8]) {
    let mut positions = [0.0f32; 3 * MOST_SEGMENTS];
    let mut channels = [0.0f32; 8 * MOST_SEGMENTS];
    let mut codes = [0u8; 2 * MOST_SEGMENTS];
    let foreground = stored.colour();
    let background = stored.colour();
    let answer = ggr::read(
        text,
        foreground,
        background,
        &mut positions,
        &mut channels,
        &mut codes,
    );
    let is_equal = is_answer(stored, answer);
    stored.compare(is_equal);
    stored.compare_all(&positions);
    stored.compare_all(&channels);
    stored.compare_all(&codes);
    let name = ggr::name(text);
    let n = stored.count();
    stored.compare(name.len() == n);
    let is_name = stored.are(name, n);
    stored.compare(is_name);
}

// The next text with its answers.
pub fn run(stored: &mut Stored) {
    let mut text = [0u8; MOST_BYTES];
    let n = stored.count();
    stored.fill(&mut text, n);
    answers(stored, front(&text, n));
}
