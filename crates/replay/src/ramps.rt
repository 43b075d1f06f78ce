// A stored ramp, of any kind, and what was asked of it.
use crate::words::{Stored, front};
use gradient::Ramp;
use stops::Kind;

// One more than a ramp may have, 2,048 stops or 256 segments, so that the refusal of it is stored too.
const MOST_POSITIONS: usize = 2049;

const MOST_CHANNELS: usize = 4 * 2049;

const MOST_CODES: usize = 2 * 257;

// Any number has a kind, and neither of the two types is of this crate, so that no `From` can say it.
pub fn kind_of(code: u32) -> Kind {
    match code {
        0 => Kind::Linear,
        1 => Kind::Smoothstep,
        2 => Kind::Sharp,
        3 => Kind::Basis,
        4 => Kind::CatmullRom,
        5 => Kind::Gimp,
        _ => Kind::GimpSaved,
    }
}

// The next ramp, and what `answers` compares of it.
pub fn run<F: Fn(&mut Stored, Ramp<'_>)>(stored: &mut Stored, answers: F)
    requires { F.IsAlwaysCallable answers }
{
    let mut positions = [0.0f32; MOST_POSITIONS];
    let mut channels = [0.0f32; MOST_CHANNELS];
    let mut codes = [0u8; MOST_CODES];
    let kind = kind_of(stored.word());
    let p = stored.count();
    let c = stored.count();
    let k = stored.count();
    stored.fill(&mut positions, p);
    stored.fill(&mut channels, c);
    stored.fill(&mut codes, k);
    let ramp = Ramp {
        kind,
        positions: front(&positions, p),
        channels: front(&channels, c),
        codes: front(&codes, k),
    };
    answers(stored, ramp);
}
