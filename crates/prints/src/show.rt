// Numbers, patterns and refusals on the standard output.
use streams::StandardOutput;

pub fn bits(out: &mut StandardOutput, x: f32) {
    out.hex(float::to_bits(x));
}

// Each number of xs, with a blank before it.
pub fn row(out: &mut StandardOutput, xs: &[f32]) {
    for x in xs {
        write!(out, " ");
        bits(out, *x);
    }
}

pub fn refused(out: &mut StandardOutput, n: u8) {
    write!(out, "refused {n}");
}
