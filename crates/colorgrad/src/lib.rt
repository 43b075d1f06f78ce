// The public face: every call of the library under one name, with the theorems on them (proofs/Refreshing). It has no
// code of its own. A ramp is lent as a `Ramp`, of slices, and every call answers for any slices at all.

// Making a ramp: sharp bands, and a GIMP text's segments and name, by document 01's rules or as GIMP saves it.
#![tactic(auto)]

pub use ggr::{name, name_saved, read, read_saved};
pub use sharp_ramp::build;

// A ramp, lent.
pub use gradient::Ramp;

// Its colour at a point, and at many.
pub use paint::{at, paint};

// The list that goes to press and heater: the ramp sampled into a record, the record thinned to stops, and both at once.
pub use linearize::{flatten, sample, thin};

// A list that keeps its word: within a hold of the ramp at the ramp's own positions, whatever record it is made of.
pub use within::{flatten_within, thin_within};

// The list that thinning makes, one stop at a time, for a caller that has room for one.
pub use next_stop::next_stop;

// The list as a GIMP text, for the drawing tool.
pub use ggr_writing::write;

// An editor's change: one stop's colour, or a stop moved, added or removed. Record and list come out as if made afresh from
// the changed ramp.
pub use refresh::{refresh, refresh_list};

// The way to edit: ramp, record and list as one thing, of one ramp through any number of edits.
pub use sheet::{edit, open};

// A list that was made elsewhere: whether it shows a ramp within a threshold, and what is wrong if not.
pub use judge::judge;

// And which depths it made one: which moved, which the ramp itself holds too close, and which the list merged.
pub use apart::apart;
