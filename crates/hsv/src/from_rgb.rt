// A colour as hue, saturation, value: docs/HSV.md, 'There'.
ghost use Rattle.std.specs.Prelude.{◌≡◌};
ghost use Rattle.hsv.specs.There.{larger, smaller, sixths_of, hsva_of};

use crate::Hsva;
use blend::Rgba;

fn larger(x: f32, y: f32) -> f32
    ensures { result ≡ larger x y }
{
    if x < y { y } else { x }
}

fn smaller(x: f32, y: f32) -> f32
    ensures { result ≡ smaller x y }
{
    if y < x { y } else { x }
}

// The hue of a colour that is no grey, in sixths of a turn: the value is its greatest channel, and d how far the least lies
// below it.
fn sixths(r: f32, g: f32, b: f32, value: f32, d: f32) -> f32
    ensures { result ≡ sixths_of r g b value d }
{
    if r == value {
        let q = (g - b) / d;
        if q < 0.0 {
            return q + 6.0;
        }
        return q;
    }
    if g == value {
        return 2.0 + (b - r) / d;
    }
    4.0 + (r - g) / d
}

pub(crate) fn hsva_of(c: Rgba) -> Hsva
    ensures { result ≡ hsva_of c }
{
    let value = larger(larger(c.r, c.g), c.b);
    let d = value - smaller(smaller(c.r, c.g), c.b);
    if d == 0.0 {
        return Hsva {
            h: 0.0,
            s: 0.0,
            v: value,
            a: c.a,
        };
    }
    Hsva {
        h: sixths(c.r, c.g, c.b, value, d) * 60.0,
        s: d / value,
        v: value,
        a: c.a,
    }
}
