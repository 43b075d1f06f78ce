// A stored edit: its sort, a stop, a position and a colour, of which the sort takes those that it has.
use crate::words::Stored;
use refresh::editing::Edit;

pub fn next(stored: &mut Stored) -> Edit {
    let sort = stored.word();
    let stop = stored.count();
    let position = stored.float();
    let colour = stored.colour();
    match sort {
        0 => Edit::Colour { stop, colour },
        1 => Edit::Move { stop, position },
        2 => Edit::Add {
            stop,
            position,
            colour,
        },
        _ => Edit::Remove { stop },
    }
}
