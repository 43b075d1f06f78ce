// One stop at a time: the place that a caller keeps as three numbers, and what is told of a step.
ghost use Rattle.std.specs.Prelude.{◌≡◌, ◌∷◌, min};
ghost use Rattle.next_stop.specs.Step.{number_of_told};
ghost use Rattle.colorgrad_c.specs.plain.Telling.{telling};
ghost use Rattle.colorgrad_c.specs.plain.Steps.{most_plain, place_from, place_told, has_stop, stop_told, handed_told};

use crate::plain::telling::tell;
use next_stop::{Handed, ListPlace, Told};

pub const START: usize = 0;

pub const AFTER: usize = 1;

pub const ENDED: usize = 2;

const MOST: usize = 4294967295;

// The start, after the stop at a row and an index, or the end, as which any other state is taken.
#[tactic(auto, unfolding(crate::specs::plain::Steps::place_from))]
pub(crate) fn place_from(state: u32, row: u32, index: u32) -> ListPlace
    ensures { result ≡ place_from state row index }
{
    match state as usize {
        START => ListPlace::Start,
        AFTER => ListPlace::After {
            row: row as usize,
            index: index as usize,
        },
        _ => ListPlace::Ended,
    }
}

// A number as one of 32 bits, in which it is handed over again; the largest where it has more.
fn narrow(n: usize) -> usize
    ensures { result ≡ min n most_plain }
{
    n.min(MOST)
}

// What is told of a step: whether there is a stop, the evaluations, and the state, the row and the index of a place, which
// count after a stop alone.
fn step_told(has: usize, evaluations: usize, place: ListPlace) -> [usize; 5]
    ensures { result ≡ has ∷ evaluations ∷ place_told place }
{
    match place {
        ListPlace::Start => [has, evaluations, START, 0, 0],
        ListPlace::After { row, index } => { [has, evaluations, AFTER, narrow(row), narrow(index)] }
        ListPlace::Ended => [has, evaluations, ENDED, 0, 0],
    }
}

fn told_number(told: Told) -> u32
    ensures { result ≡ number_of_told told }
{
    match told {
        Told::Stop(_) | Told::Ended => 0,
        Told::Refused(n) => n as u32,
    }
}

// 1 where there is a stop, else 0.
fn has_stop(told: Told) -> usize
    ensures { result ≡ has_stop told }
{
    match told {
        Told::Stop(_) => 1,
        Told::Ended | Told::Refused(_) => 0,
    }
}

// The stop, a position and four channels.
fn stop_told(told: Told) -> [f32; 5]
    ensures { result ≡ stop_told told }
{
    match told {
        Told::Stop(s) => {
            let c = s.colour;
            [s.position, c.r, c.g, c.b, c.a]
        }
        Told::Ended | Told::Refused(_) => [0.0; 5],
    }
}

// Tells whether there is a stop, the evaluations and the place to go on from; and the stop, 0 where there is none.
pub(crate) fn tell_handed(handed: Handed, told: &mut [usize], stop: &mut [f32]) -> u32
    ensures value { result ≡ number_of_told handed.told }
    ensures told_value { told.new ≡ telling (handed_told handed) told.old }
    ensures stop_value { stop.new ≡ telling (stop_told handed.told) stop.old }
{
    let what = handed.told;
    let at = handed.place;
    let numbers = step_told(has_stop(what), handed.evaluations, at);
    tell(told, &numbers);
    tell(stop, &stop_told(what));
    told_number(what)
}
