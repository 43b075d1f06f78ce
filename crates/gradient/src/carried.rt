// What of a GIMP segment is carried: its codes, of sinusoidal and curved ones its positions too, and the kind of ramp.
ghost use Rattle.std.specs.Prelude.{◌≡◌};
ghost use Rattle.gradient.specs.Gimp.{in_order, takes_curved, asks_middle, carried};

use crate::gimp::{
    CURVED, HSV_CLOCKWISE, LINEAR, SINUSOIDAL, SPHERICAL_DECREASING, SPHERICAL_INCREASING, STEP,
};
use stops::Kind;

// Whether the middle is not outside the ends.
fn is_in_order(left: f32, middle: f32, right: f32) -> bool
    ensures { result ≡ in_order left middle right }
{
    left <= middle && middle <= right
}

fn takes_curved(kind: Kind) -> bool
    ensures { result ≡ takes_curved kind }
{
    kind == Kind::GimpSaved
}

fn asks_middle(kind: Kind, blending: u8) -> bool
    ensures { result ≡ asks_middle kind blending }
{
    if blending == CURVED {
        takes_curved(kind)
    } else {
        blending == SINUSOIDAL
    }
}

// Whether a ramp of the kind carries a segment with these codes and positions. Of a sinusoidal or curved one the positions
// are asked too.
pub fn is_carried(
    kind: Kind,
    blending: u8,
    colouring: u8,
    left: f32,
    middle: f32,
    right: f32,
) -> bool
    ensures { result ≡ carried kind blending colouring left middle right }
{
    if colouring > HSV_CLOCKWISE {
        false
    } else if asks_middle(kind, blending) {
        is_in_order(left, middle, right)
    } else {
        matches!(
            blending,
            LINEAR | SPHERICAL_INCREASING | SPHERICAL_DECREASING | STEP
        )
    }
}
