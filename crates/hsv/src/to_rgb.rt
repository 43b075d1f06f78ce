// Hue, saturation, value as a colour, by way of the lightness: docs/HSV.md, 'Back'.
ghost use Rattle.std.specs.Prelude.{◌≡◌};
ghost use Rattle.hsv.specs.Back.{angle_of, into_six, lightness_of, saturation_of, upper_of, channel_at, channel_of, from_lightness, rgba_of};

use crate::Hsva;
use crate::remainder::remainder;
use blend::Rgba;

// An angle taken into 0..360.
fn angle(h: f32) -> f32
    ensures { result ≡ angle_of h }
{
    let rest = remainder(h, 360);
    if rest < 0.0 {
        return rest + 360.0;
    }
    rest
}

// Sixths of a turn taken into 0..6.
fn into_six(x: f32) -> f32
    ensures { result ≡ into_six x }
{
    remainder(remainder(x, 6) + 6.0, 6)
}

fn lightness(s: f32, v: f32) -> f32
    ensures { result ≡ lightness_of s v }
{
    (2.0 - s) * v / 2.0
}

// The saturation beside a lightness l, from that beside a value v.
fn saturation(s: f32, v: f32, l: f32) -> f32
    ensures { result ≡ saturation_of s v l }
{
    if l == 0.0 {
        return s;
    }
    if l == 1.0 {
        return 0.0;
    }
    if l < 0.5 {
        return s * v / (l * 2.0);
    }
    s * v / (2.0 - l * 2.0)
}

// The greatest channel of a colour.
fn upper(s: f32, l: f32) -> f32
    ensures { result ≡ upper_of s l }
{
    if l < 0.5 {
        return l * (1.0 + s);
    }
    l + s - l * s
}

// A channel between the least and the greatest, by where on the circle it is asked for.
fn channel_at(least: f32, most: f32, x: f32) -> f32
    ensures { result ≡ channel_at least most x }
{
    if x < 1.0 {
        return least + (most - least) * x;
    }
    if x < 3.0 {
        return most;
    }
    if x < 4.0 {
        return least + (most - least) * (4.0 - x);
    }
    least
}

fn channel(least: f32, most: f32, x: f32) -> f32
    ensures { result ≡ channel_of least most x }
{
    float::clamp(channel_at(least, most, into_six(x)))
}

// Red is asked for a third of the circle ahead, blue a third behind.
fn from_lightness(h: f32, s: f32, l: f32, a: f32) -> Rgba
    ensures { result ≡ from_lightness h s l a }
{
    if s == 0.0 {
        return Rgba {
            r: l,
            g: l,
            b: l,
            a,
        };
    }
    let most = upper(s, l);
    let least = 2.0 * l - most;
    let x = h / 60.0;
    Rgba {
        r: channel(least, most, x + 2.0),
        g: channel(least, most, x),
        b: channel(least, most, x - 2.0),
        a,
    }
}

pub(crate) fn rgba_of(c: Hsva) -> Rgba
    ensures { result ≡ rgba_of c }
{
    let s = float::clamp(c.s);
    let v = float::clamp(c.v);
    let l = lightness(s, v);
    from_lightness(angle(c.h), saturation(s, v, l), l, float::clamp(c.a))
}
