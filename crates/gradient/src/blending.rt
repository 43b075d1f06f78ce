// How a GIMP segment's left colour turns into its right one.
ghost use Rattle.std.specs.Prelude.{◌≡◌};
ghost use Rattle.gradient.specs.Gimp.{along, linear_factor, increasing, decreasing, bent, unwaved, waved, curved, segment_colour};

use crate::gimp::{SINUSOIDAL, SPHERICAL_DECREASING, SPHERICAL_INCREASING, STEP, Segment};
use crate::hued;
use blend::{Rgba, utils};

// 2^-23.
pub(crate) const EPSILON: f32 = 0.00000011920928955078125;

// Where x lies from left, 0, to right, 1.
pub fn place_along(left: f32, right: f32, x: f32) -> f32
    ensures { result ≡ along left right x }
{
    let length = right - left;
    if length < EPSILON {
        return 0.5;
    }
    (x - left) / length
}

pub(crate) fn calc_linear_factor(middle: f32, place: f32) -> f32
    ensures { result ≡ linear_factor middle place }
{
    if place <= middle {
        if middle < EPSILON {
            return 0.0;
        }
        return 0.5 * place / middle;
    }
    if 1.0 - middle < EPSILON {
        return 1.0;
    }
    0.5 + 0.5 * (place - middle) / (1.0 - middle)
}

fn spherical_increasing(f: f32) -> f32
    ensures { result ≡ increasing f }
{
    sqrt::root(1.0 - (f - 1.0) * (f - 1.0))
}

fn spherical_decreasing(f: f32) -> f32
    ensures { result ≡ decreasing f }
{
    1.0 - sqrt::root(1.0 - f * f)
}

// The factor of every blending but the sinusoidal and the curved one.
pub(crate) fn bend(blending: u8, f: f32) -> f32
    ensures { result ≡ bent blending f }
{
    if blending == SPHERICAL_INCREASING {
        return spherical_increasing(f);
    }
    if blending == SPHERICAL_DECREASING {
        return spherical_decreasing(f);
    }
    f
}

// The rule of blending where neither sine nor curve is asked for: the colour at a place of the segment. Both the place and the pivot,
// which is the place of the middle, are counted from the left end, 0, to the right end, 1: painting works out the pivot once
// for many points.
pub fn blend(g: Segment, pivot: f32, place: f32) -> Rgba
    ensures { result ≡ unwaved g pivot place }
{
    if g.blending == STEP {
        if place >= pivot {
            return g.rcolor;
        }
        return g.lcolor;
    }
    let f = bend(g.blending, calc_linear_factor(pivot, place));
    utils::interpolate_linear(g.lcolor, g.rcolor, f)
}

// The same of a sinusoidal segment. It is asked for by name, at two places: a sine within `blend` would be compiled into every
// point of every other segment.
pub fn blend_wave(g: Segment, pivot: f32, place: f32) -> Rgba
    ensures { result ≡ waved g pivot place }
{
    let f = sine::wave(calc_linear_factor(pivot, place));
    utils::interpolate_linear(g.lcolor, g.rcolor, f)
}

// The same of a curved segment, for the same reason. A middle too near an end leaves no curve.
pub(crate) fn blend_curve(g: Segment, pivot: f32, place: f32) -> Rgba
    ensures { result ≡ curved g pivot place }
{
    if pivot < EPSILON {
        return g.rcolor;
    }
    if 1.0 - pivot < EPSILON {
        return g.lcolor;
    }
    let f = curve::factor(place, pivot);
    utils::interpolate_linear(g.lcolor, g.rcolor, f)
}

// The colour of a segment at t, which need not lie in it.
pub(crate) fn segment_colour(g: Segment, t: f32) -> Rgba
    ensures { result ≡ segment_colour g t }
{
    let pivot = place_along(g.left, g.right, g.middle);
    let place = place_along(g.left, g.right, t);
    if hued::is_costly(g.blending, g.colouring) {
        return hued::blend_costly(g, pivot, place);
    }
    if g.blending == SINUSOIDAL {
        return blend_wave(g, pivot, place);
    }
    blend(g, pivot, place)
}
