// The hue circle: docs/HSV.md, 'Round the circle'. There is one way, up from one hue to another; clockwise is its mirror.
ghost use Rattle.std.specs.Prelude.{◌≡◌};
ghost use Rattle.hsv.specs.Circle.{way, up_hue, down_hue};

// The hue at t of the way up from one hue to another. Where the other does not lie above, equal hues too, the way goes on
// through the end of the circle, and a hue past that end is taken back by a turn.
fn way(from: f32, to: f32, end: f32, t: f32) -> f32
    ensures { result ≡ way from to end t }
{
    if from < to {
        return from + (to - from) * t;
    }
    let h = from + (360.0 - (from - to)) * t;
    if h > end {
        return h - 360.0;
    }
    h
}

pub(crate) fn counter_clockwise_hue(from: f32, to: f32, t: f32) -> f32
    ensures { result ≡ up_hue from to t }
{
    way(from, to, 360.0, t)
}

// The mirror turns the circle's range 0..360 into -360..0, which ends at 0.
pub(crate) fn clockwise_hue(from: f32, to: f32, t: f32) -> f32
    ensures { result ≡ down_hue from to t }
{
    -way(-from, -to, 0.0, t)
}
