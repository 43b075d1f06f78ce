// What the tool reads: the lines of its input, and what they ask for.
#![tactic(auto)]

pub use fields::Recolour;

mod fields;
pub mod reading;
