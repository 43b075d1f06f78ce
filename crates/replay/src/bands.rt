// Stored sharp ramps: colours, a domain and a softness; the refusal, or 0 and the stops built.
use crate::words::{Stored, front};
use sharp_ramp::Built;

// One more than a sharp ramp may have, so that the refusal of it is stored too.
const MOST_COLOURS: usize = 4 * 257;

const MOST_POSITIONS: usize = 2 * 256;

const MOST_CHANNELS: usize = 8 * 256;

// Whether the answer is the next two words: refusal, stops.
fn is_answer(stored: &mut Stored, built: Built) -> bool {
    let refusal = stored.word();
    let stops = stored.count();
    match built {
        Built::Stops(n) => refusal == 0 && n == stops,
        Built::Refused(n) => u32::from(n) == refusal,
    }
}

// The next record of this sort: the answer, the positions and the channels, each an answer of its own.
pub fn run(stored: &mut Stored) {
    let mut colours = [0.0f32; MOST_COLOURS];
    let mut positions = [0.0f32; MOST_POSITIONS];
    let mut channels = [0.0f32; MOST_CHANNELS];
    let n = stored.count();
    stored.fill(&mut colours, n);
    let min = stored.float();
    let max = stored.float();
    let softness = stored.float();
    let built = sharp_ramp::build(
        front(&colours, n),
        min,
        max,
        softness,
        &mut positions,
        &mut channels,
    );
    let is_equal = is_answer(stored, built);
    stored.compare(is_equal);
    stored.compare_all(&positions);
    stored.compare_all(&channels);
}
