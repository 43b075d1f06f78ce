// The basis spline's colour between two stops.
ghost use Rattle.std.specs.Prelude.{◌≡◌};
ghost use Rattle.blend.specs.Basis.{weights_of, weighted_sum, basis};
ghost use Rattle.blend.specs.Pair.{basis_pair};

use super::{Rgba, Stop, utils};

// What each of four values counts, six times over.
#[derive(Clone, Copy)]
pub struct Weights {
    pub w0: f32,
    pub w1: f32,
    pub w2: f32,
    pub w3: f32,
}

fn weights_at(t: f32) -> Weights
    ensures { result ≡ weights_of t }
{
    let tt = t * t;
    let ttt = tt * t;
    Weights {
        w0: 1.0 - 3.0 * t + 3.0 * tt - ttt,
        w1: 4.0 - 6.0 * tt + 3.0 * ttt,
        w2: 1.0 + 3.0 * t + 3.0 * tt - 3.0 * ttt,
        w3: ttt,
    }
}

fn weigh(w: Weights, v0: f32, v1: f32, v2: f32, v3: f32) -> f32
    ensures { result ≡ weighted_sum w v0 v1 v2 v3 }
{
    (w.w0 * v0 + w.w1 * v1 + w.w2 * v2 + w.w3 * v3) / 6.0
}

// The weights do not depend on the channel: they are worked out once.
fn spline(t: f32, p0: Rgba, p1: Rgba, p2: Rgba, p3: Rgba) -> Rgba
    ensures { result ≡ basis t p0 p1 p2 p3 }
{
    let w = weights_at(t);
    Rgba {
        r: weigh(w, p0.r, p1.r, p2.r, p3.r),
        g: weigh(w, p0.g, p1.g, p2.g, p3.g),
        b: weigh(w, p0.b, p1.b, p2.b, p3.b),
        a: weigh(w, p0.a, p1.a, p2.a, p3.a),
    }
}

pub fn pair_colour(left: Rgba, p: Stop, q: Stop, right: Rgba, t: f32) -> Rgba
    ensures { result ≡ basis_pair left p q right t }
{
    spline(utils::share(p, q, t), left, p.colour, q.colour, right)
}
