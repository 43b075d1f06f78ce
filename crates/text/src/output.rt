// Bytes put into an output. A byte past its end is dropped, so that a text too long for it is measured all the same. A
// place is a usize: after the greatest one comes that one again.
ghost use Rattle.std.specs.Prelude.{[], ◌∷◌};
ghost use Rattle.text.specs.Output.{decimal_of, PutsFrom};

// Digits of the greatest number.
pub const DECIMALS: usize = 20;

// Writes a byte at a place; the place after it.
pub fn put(out: &mut [u8], at: usize, b: u8) -> usize
    ensures { PutsFrom out.old out.new at (b ∷ []) result }
{
    if at < out.len() {
        out[at] = b;
        at + 1
    } else {
        at.saturating_add(1)
    }
}

// Writes bytes from a place on; the place after them.
pub fn put_all(out: &mut [u8], at: usize, text: &[u8]) -> usize
    ensures { PutsFrom out.old out.new at text.now result }
{
    let from = at.min(out.len());
    let n = text.len().min(out.len() - from);
    out[from..from + n].copy_from_slice(&text[..n]);
    at.saturating_add(text.len())
}

// Writes the digits of n, the last `left` where it has more; the place after them.
pub fn put_decimal(out: &mut [u8], at: usize, n: usize, left: usize) -> usize
    ensures { PutsFrom out.old out.new at (decimal_of left n) result }
{
    if left == 0 {
        return at;
    }
    let digit = 48 + (n % 10) as u8;
    if n < 10 {
        return put(out, at, digit);
    }
    let next = put_decimal(out, at, n / 10, left - 1);
    put(out, next, digit)
}
