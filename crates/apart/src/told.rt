// What is told: of one depth, and of all of them.
use blend::Rgba;

// How many depths moved, how many the ramp itself holds too close to the one before, how many the list merged with the one
// before, and the first merged one, which is the number of depths where there is none; or the number of the refusal.
#[derive(Clone, Copy)]
pub enum Apart {
    Told {
        moved: usize,
        close: usize,
        merged: usize,
        first_merged: usize,
    },
    Refused(u8),
}

// The ramp's colour and the list's at one depth.
#[derive(Clone, Copy)]
pub(crate) struct Seen {
    pub(crate) ramp: Rgba,
    pub(crate) list: Rgba,
}

// What is wrong at one depth.
#[derive(Clone, Copy)]
pub(crate) struct Fault {
    pub(crate) moved: bool,
    pub(crate) close: bool,
    pub(crate) merged: bool,
}

// How many of each among the first depths, and the first merged one of them.
#[derive(Clone, Copy)]
pub(crate) struct Tally {
    pub(crate) moved: usize,
    pub(crate) close: usize,
    pub(crate) merged: usize,
    pub(crate) first: usize,
}
