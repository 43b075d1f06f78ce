// A whole number in three words of 60 binary digits, of which the first may be longer.
ghost use Rattle.std.specs.Prelude.{◌^◌, ◌<◌};

pub(crate) const WORD: u64 = 1152921504606846976;

// The words stand in their order, so that the derived one is that of the numbers.
#[derive(Clone, Copy, PartialEq, Eq, PartialOrd, Ord)]
pub(crate) struct Wide {
    pub(crate) hi: u64,
    pub(crate) mid: u64,
    pub(crate) lo: u64,
    ghost words_fit: { (mid < 2 ^ 60) × (lo < 2 ^ 60) },
}
