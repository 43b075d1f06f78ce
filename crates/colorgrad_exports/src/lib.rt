// The static library for C: each call of `colorgrad_c` under its own name, with its clauses. A library of Rattle exports nothing
// itself, and nothing can stand on a static library; so each export here is one call, and what it calls is pinned there.
#![tactic(auto)]

pub mod about;
pub mod edits;
pub mod gimp;
pub mod judging;
pub mod leaves;
pub mod lists;
pub mod ramps;
pub mod sheets;
pub mod steps;
pub mod tool;
pub mod writer;
