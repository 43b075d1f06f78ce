// Stored verdicts on lists: which it is, and what it names: a stop; a row, an index and the point there; or the refusal.
use crate::words::{Stored, Value, front};
use gradient::Ramp;
use judge::Verdict;

const MOST_STOPS: usize = 256;

// Whether the verdict is the next four words.
fn is_verdict(stored: &mut Stored, verdict: Verdict) -> bool {
    let which = stored.word();
    let first = stored.count();
    let second = stored.count();
    let point = stored.word();
    match verdict {
        Verdict::Yes => which == 0,
        Verdict::WrongLength => which == 1,
        Verdict::BadStop { stop } => which == 2 && stop == first,
        Verdict::WrongFirst => which == 3,
        Verdict::WrongLast => which == 4,
        Verdict::TooFar { row, index, t } => {
            which == 5 && t.to_word() == point && row == first && index == second
        }
        Verdict::Refused(n) => which == 6 && usize::from(n) == first,
    }
}

pub fn answers(stored: &mut Stored, ramp: Ramp) {
    let mut places = [0.0f32; MOST_STOPS];
    let mut colours = [0.0f32; 4 * MOST_STOPS];
    let threshold = stored.float();
    let p = stored.count();
    let c = stored.count();
    stored.fill(&mut places, p);
    stored.fill(&mut colours, c);
    let verdict = judge::judge(&ramp, threshold, front(&places, p), front(&colours, c));
    let is_equal = is_verdict(stored, verdict);
    stored.compare(is_equal);
}
