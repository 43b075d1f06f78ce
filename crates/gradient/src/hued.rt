// How the left colour of a segment coloured by hue turns into its right one; the curve stands with it. It stands apart from `blending` so that the
// other segments, whose colours are mixed at every point of a painting, pay a test for it and no more.
ghost use Rattle.std.specs.Prelude.{◌≡◌};
ghost use Rattle.hsv.specs.Mix.{there_and_back};
ghost use Rattle.gradient.specs.Gimp.{is_hued, uncurved, turned, curved_by, hued, is_costly, costly};

use crate::blending::{EPSILON, bend, blend_curve, calc_linear_factor};
use crate::gimp::{CURVED, HSV_CLOCKWISE, HSV_COUNTER_CLOCKWISE, SINUSOIDAL, STEP, Segment};
use blend::Rgba;

fn is_hued(colouring: u8) -> bool
    ensures { result ≡ is_hued colouring }
{
    matches!(colouring, HSV_COUNTER_CLOCKWISE | HSV_CLOCKWISE)
}

fn factor(blending: u8, pivot: f32, place: f32) -> f32
    ensures { result ≡ uncurved blending pivot place }
{
    let f = calc_linear_factor(pivot, place);
    if blending == SINUSOIDAL {
        return sine::wave(f);
    }
    bend(blending, f)
}

fn turn(colouring: u8, p: Rgba, q: Rgba, f: f32) -> Rgba
    ensures { result ≡ turned colouring p q f }
{
    if colouring == HSV_CLOCKWISE {
        return hsv::clockwise(p, q, f);
    }
    hsv::counter_clockwise(p, q, f)
}

// Of a curved segment. A middle too near an end leaves no curve.
fn curve_hued(g: Segment, pivot: f32, place: f32) -> Rgba
    ensures { result ≡ curved_by there_and_back (turned g.colouring g.lcolor g.rcolor) g pivot place }
{
    if pivot < EPSILON {
        return hsv::there_and_back(g.rcolor);
    }
    if 1.0 - pivot < EPSILON {
        return hsv::there_and_back(g.lcolor);
    }
    let f = curve::factor(place, pivot);
    turn(g.colouring, g.lcolor, g.rcolor, f)
}

fn blend_hued(g: Segment, pivot: f32, place: f32) -> Rgba
    ensures { result ≡ hued g pivot place }
{
    if g.blending == STEP {
        if place >= pivot {
            return hsv::there_and_back(g.rcolor);
        }
        return hsv::there_and_back(g.lcolor);
    }
    if g.blending == CURVED {
        return curve_hued(g, pivot, place);
    }
    let f = factor(g.blending, pivot, place);
    turn(g.colouring, g.lcolor, g.rcolor, f)
}

// Whether a segment is by hue or curved: what is costly at each point.
pub fn is_costly(blending: u8, colouring: u8) -> bool
    ensures { result ≡ is_costly blending colouring }
{
    is_hued(colouring) || blending == CURVED
}

pub fn blend_costly(g: Segment, pivot: f32, place: f32) -> Rgba
    ensures { result ≡ costly g pivot place }
{
    if is_hued(g.colouring) {
        return blend_hued(g, pivot, place);
    }
    blend_curve(g, pivot, place)
}
