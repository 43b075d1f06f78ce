// GIMP's two HSV colourings: a colour as hue, saturation, value; the ways round the hue circle; and back. The steps are those
// of docs/HSV.md, in its order.
#![tactic(auto)]

ghost use Rattle.std.specs.Prelude.{◌≡◌};
ghost use Rattle.hsv.specs.Mix.{there_and_back, mixed_at, counter_clockwise, clockwise};

use blend::Rgba;
use circle::{clockwise_hue, counter_clockwise_hue};
use from_rgb::hsva_of;
use to_rgb::rgba_of;

mod circle;
mod from_rgb;
mod remainder;
mod to_rgb;

// Hue in degrees, saturation, value, alpha.
#[derive(Clone, Copy)]
pub struct Hsva {
    pub h: f32,
    pub s: f32,
    pub v: f32,
    pub a: f32,
}

// What a step segment shows of its end: converted there and back.
pub fn there_and_back(c: Rgba) -> Rgba
    ensures { result ≡ there_and_back c }
{
    rgba_of(hsva_of(c))
}

// The colour with this hue, and all else mixed in a straight line.
fn mixed_at(hue: f32, p: Hsva, q: Hsva, t: f32) -> Rgba
    ensures { result ≡ mixed_at hue p q t }
{
    rgba_of(Hsva {
        h: hue,
        s: p.s + t * (q.s - p.s),
        v: p.v + t * (q.v - p.v),
        a: p.a + t * (q.a - p.a),
    })
}

// The source's `blend_hsv_ccw`: hues rise.
pub fn counter_clockwise(from: Rgba, to: Rgba, t: f32) -> Rgba
    ensures { result ≡ counter_clockwise from to t }
{
    let p = hsva_of(from);
    let q = hsva_of(to);
    mixed_at(counter_clockwise_hue(p.h, q.h, t), p, q, t)
}

// The source's `blend_hsv_cw`: hues fall.
pub fn clockwise(from: Rgba, to: Rgba, t: f32) -> Rgba
    ensures { result ≡ clockwise from to t }
{
    let p = hsva_of(from);
    let q = hsva_of(to);
    mixed_at(clockwise_hue(p.h, q.h, t), p, q, t)
}
