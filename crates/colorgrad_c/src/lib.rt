// The library for C and Rust: each call under the prefix colorgrad_, pinned as the Rattle call is. Each takes numbers and
// slices and answers one number, so that one module is right on every machine; what more it has to say it tells into a lent
// slice. A slice passes as a pointer and a length; with length 0 the pointer is not read.
#![tactic(auto)]

pub mod about;
pub mod edits;
pub mod gimp;
pub mod judging;
pub mod leaves;
pub mod lists;
pub mod plain;
pub mod ramps;
pub mod sheets;
pub mod steps;
pub mod tool;
pub mod writer;
