// Document 01's numbers of refusals and its limits, each once, under the names of include/colorgrad.h. The sampler's own
// numbers are constants of its type.

// A ramp whose stops or segments are too few, too many, with an edit made too, odd for sharp or of a kind not carried; a list
// to write of too few or too many stops; lengths that disagree.
#![tactic(auto)]

pub const MISSHAPEN: u8 = 1;

// A position or channel of the input is not finite.
pub const NOT_FINITE: u8 = 2;

// A stop's position is below the one before, in a ramp, in one with an edit made, or in a list to write.
pub const FALLING: u8 = 3;

// The domain reaches beyond plus or minus 1e38.
pub const FAR_DOMAIN: u8 = 4;

// A record of other lengths, a count that is 0 or above 128, or a place that the record has not.
pub const BAD_RECORD: u8 = 5;

// An edit of a kind of ramp that it cannot be made of, of no stop that may be edited so, or with a number that is not finite.
pub const BAD_EDIT: u8 = 6;

// The output has no room for one more stop that is kept, for the colours painted, or for the text written.
pub const NO_ROOM: u8 = 7;

// An emitted position or colour is not finite.
pub const LIST_NOT_FINITE: u8 = 8;

// An emitted position is below the one before.
pub const LIST_FALLING: u8 = 9;

// A GIMP text is too long, is not ASCII where it must be, or, as GIMP saves it, has a name that is not UTF-8.
pub const NOT_A_TEXT: u8 = 10;

// Line 1, 2 or 3 is invalid.
pub const BAD_HEADER: u8 = 11;

// A segment line is invalid.
pub const BAD_SEGMENT: u8 = 12;

// There are fewer segment lines than counted.
pub const FEW_LINES: u8 = 13;

// There is no segment.
pub const NO_SEGMENT: u8 = 14;

// The count is above 256, or above the lent room.
pub const TOO_MANY_SEGMENTS: u8 = 15;

// A segment is valid, and curved, which `read` does not take, or curved or sinusoidal with its middle outside its ends.
pub const NOT_CARRIED: u8 = 16;

// A sharp ramp cannot be built of these colours on this domain.
pub const NOT_BUILT: u8 = 17;

// The segments of a GIMP file do not run in order from 0 to 1, each joined to the one before.
pub const TORN: u8 = 18;

// A number of a list that is to be written cannot be, or the list does not start at 0 and end at 1.
pub const UNWRITABLE: u8 = 19;

// A record of another threshold in force, or of other ends of the domain.
pub const OTHER_THRESHOLD: u8 = 20;

// Two stops of a list that follow each other do not show what lies between them.
pub const NOT_SHOWN: u8 = 21;

// A list that a judge turns down before it asks for colours.
pub const BAD_LIST: u8 = 22;

// No depths, or one that is not finite, outside the ramp's domain, or below the one before.
pub const BAD_DEPTHS: u8 = 23;

// A step that is not finite or below 0.
pub const BAD_STEP: u8 = 24;

// Stops of a ramp.
pub const MOST_STOPS: usize = 2048;

// Segments of a GIMP ramp.
pub const MOST_SEGMENTS: usize = 256;

// Stops of a list that is written as a GIMP file: one more than its segments.
pub const MOST_WRITTEN: usize = 257;

// Colours of a sharp ramp to build, which gets two stops for each.
pub const MOST_COLOURS: usize = 256;

// Bytes of a GIMP text, marks counted.
pub const MOST_TEXT: usize = 65536;
