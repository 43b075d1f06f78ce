// What a C caller hands over and gets back: a kind and an edit by their codes; of an answer its number, and what more it says
// told into a lent slice.
pub mod edits;
pub mod kinds;
pub mod lists;
pub mod name;
pub mod ramps;
pub mod sheets;
pub mod steps;
pub mod telling;
pub mod verdicts;
