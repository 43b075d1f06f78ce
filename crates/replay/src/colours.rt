// Stored colours: the refusal of a ramp, or 0, and its colours at some points.
use crate::words::Stored;
use gradient::Ramp;
use stops::Checked;

fn refusal_of(ramp: Ramp) -> u32 {
    match ramp.check() {
        Checked::Fine => 0,
        Checked::Refused(n) => u32::from(n),
    }
}

pub fn answers(stored: &mut Stored, ramp: Ramp) {
    let refusal = stored.word();
    let n = stored.word();
    stored.compare(refusal_of(ramp) == refusal);
    for _ in 0..n {
        let t = stored.float();
        let c = ramp.colour_at(t);
        let is_equal = stored.are(&[c.r, c.g, c.b, c.a], 4);
        stored.compare(is_equal);
    }
}
