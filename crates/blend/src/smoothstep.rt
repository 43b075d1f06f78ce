// The smoothstep gradient's colour between two stops.
ghost use Rattle.std.specs.Prelude.{◌≡◌};
ghost use Rattle.blend.specs.Pair.{smooth_pair};

use super::{Rgba, Stop, utils};

pub fn pair_colour(p: Stop, q: Stop, t: f32) -> Rgba
    ensures { result ≡ smooth_pair p q t }
{
    utils::interpolate_smoothstep(p.colour, q.colour, utils::share(p, q, t))
}
