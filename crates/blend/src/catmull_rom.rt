// The Catmull-Rom spline's colour between two stops.
ghost use Rattle.std.specs.Prelude.{◌≡◌};
ghost use Rattle.blend.specs.CatmullRom.{chord, tangent, cubic, segment_of, cubic_at, segment_at};
ghost use Rattle.blend.specs.Chords.{chords_of, coefficients_by, segment_drawn};
ghost use Rattle.blend.specs.Pair.{catmull_pair};

use super::{Rgba, Stop, utils};

// The source's `powf(.., 0.5)`.
fn chord_of(v: f32, w: f32) -> f32
    ensures { result ≡ chord v w }
{
    sqrt::root(float::magnitude(v - w))
}

// Equal neighbours divide zero by zero: such a tangent is 0.
fn tangent_of(w: f32, x: f32, y: f32, z: f32, t0: f32, t1: f32, t2: f32) -> f32
    ensures { result ≡ tangent w x y z t0 t1 t2 }
{
    let m = (1.0 - 0.0) * w * ((x - y) / (t0 - t1) - (x - z) / (t0 - t2) + (y - z) / (t1 - t2));
    if m != m { 0.0 } else { m }
}

fn cubic_of(v1: f32, v2: f32, m1: f32, m2: f32) -> [f32; 4]
    ensures { result ≡ cubic v1 v2 m1 m2 }
{
    [
        2.0 * v1 - 2.0 * v2 + m1 + m2,
        -3.0 * v1 + 3.0 * v2 - 2.0 * m1 - m2,
        m1,
        v1,
    ]
}

// The chords of two neighbours, channel by channel.
pub fn chords(p: Rgba, q: Rgba) -> Rgba
    ensures { result ≡ chords_of p q }
{
    p.zip_with(q, chord_of)
}

fn coefficients(
    v0: f32,
    v1: f32,
    v2: f32,
    v3: f32,
    before: f32,
    within: f32,
    after: f32,
) -> [f32; 4]
    ensures { result ≡ coefficients_by v0 v1 v2 v3 before within after }
{
    let t0 = 0.0;
    let t1 = t0 + before;
    let t2 = t1 + within;
    let t3 = t2 + after;
    let m1 = tangent_of(t2 - t1, v0, v1, v2, t0, t1, t2);
    let m2 = tangent_of(t2 - t1, v1, v2, v3, t1, t2, t3);
    cubic_of(v1, v2, m1, m2)
}

// A segment, with the chords between its four colours in hand. Neighbouring pairs share two of their three, and each is a root for
// every channel: so one who draws segments in order works out a third of the roots.
pub fn draw_segment(
    p0: Rgba,
    p1: Rgba,
    p2: Rgba,
    p3: Rgba,
    before: Rgba,
    within: Rgba,
    after: Rgba,
) -> [[f32; 4]; 4]
    ensures { result ≡ segment_drawn p0 p1 p2 p3 before within after }
{
    [
        coefficients(p0.r, p1.r, p2.r, p3.r, before.r, within.r, after.r),
        coefficients(p0.g, p1.g, p2.g, p3.g, before.g, within.g, after.g),
        coefficients(p0.b, p1.b, p2.b, p3.b, before.b, within.b, after.b),
        coefficients(p0.a, p1.a, p2.a, p3.a, before.a, within.a, after.a),
    ]
}

// Four channels of four coefficients.
pub fn segment(p0: Rgba, p1: Rgba, p2: Rgba, p3: Rgba) -> [[f32; 4]; 4]
    ensures { result ≡ segment_of p0 p1 p2 p3 }
{
    draw_segment(
        p0,
        p1,
        p2,
        p3,
        chords(p0, p1),
        chords(p1, p2),
        chords(p2, p3),
    )
}

fn cubic_at(s: [f32; 4], t: f32) -> f32
    ensures { result ≡ cubic_at s t }
{
    let tt = t * t;
    let ttt = tt * t;
    s[0] * ttt + s[1] * tt + s[2] * t + s[3]
}

pub fn segment_at(s: [[f32; 4]; 4], t: f32) -> Rgba
    ensures { result ≡ segment_at s t }
{
    let a = s[0];
    let b = s[1];
    let c = s[2];
    let d = s[3];
    Rgba {
        r: cubic_at(a, t),
        g: cubic_at(b, t),
        b: cubic_at(c, t),
        a: cubic_at(d, t),
    }
}

pub fn pair_colour(left: Rgba, p: Stop, q: Stop, right: Rgba, t: f32) -> Rgba
    ensures { result ≡ catmull_pair left p q right t }
{
    segment_at(
        segment(left, p.colour, q.colour, right),
        utils::share(p, q, t),
    )
}
