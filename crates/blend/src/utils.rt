// What the kinds of ramp have in common: the share of a pair, mixing and spacing, in the source's order of
// operations; the test for refusal 2.
ghost use Rattle.std.specs.Prelude.{◌≡◌};
ghost use Rattle.blend.specs.Blend.{linear, smooth};
ghost use Rattle.blend.specs.Pair.{share_of};
ghost use Rattle.blend.specs.Points.{linspace_at};
ghost use Rattle.blend.specs.Finite.{all_finite};

use super::{Rgba, Stop};

// How far t has come from stop p to stop q.
pub fn share(p: Stop, q: Stop, t: f32) -> f32
    ensures { result ≡ share_of p q t }
{
    (t - p.position) / (q.position - p.position)
}

pub fn interpolate_linear(p: Rgba, q: Rgba, t: f32) -> Rgba
    ensures { result ≡ linear p q t }
{
    p.zip_with(q, |v, w| v + t * (w - v))
}

pub(crate) fn interpolate_smoothstep(p: Rgba, q: Rgba, t: f32) -> Rgba
    ensures { result ≡ smooth p q t }
{
    p.zip_with(q, |v, w| (w - v) * (3.0 - t * 2.0) * t * t + v)
}

// The i-th of n points from min to max. Any u16 is an f32, so that nothing is asked of n and i; the conversion is the
// machine's, since `float::from_whole` makes a sharp ramp's building slower by 2%.
pub fn linspace(min: f32, max: f32, n: u16, i: u16) -> f32
    ensures { result ≡ linspace_at min max n i }
{
    if n == 1 {
        min
    } else {
        min + (i as f32 * (max - min)) / (n as f32 - 1.0)
    }
}

pub fn all_finite(xs: &[f32]) -> bool
    ensures { result ≡ all_finite xs.now }
{
    xs.iter().all(|x| float::is_finite(*x))
}
