// The sharp gradient's colour between two stops.
ghost use Rattle.std.specs.Prelude.{◌≡◌};
ghost use Rattle.blend.specs.Pair.{sharp_pair};

use super::{Rgba, Stop, smoothstep};

// A pair with even lower index is one colour: no share is worked out.
pub fn pair_colour(lower: usize, p: Stop, q: Stop, t: f32) -> Rgba
    ensures { result ≡ sharp_pair lower p q t }
{
    if lower % 2 == 0 {
        p.colour
    } else {
        smoothstep::pair_colour(p, q, t)
    }
}
