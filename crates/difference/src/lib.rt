// How far apart two colours are.
#![tactic(auto)]

ghost use Rattle.std.specs.Prelude.{◌≡◌};
ghost use Rattle.std.specs.Float.Ieee.{le};
ghost use Rattle.difference.specs.Difference.{clamped_of, squares_of, distance_of, exceeds};

use blend::Rgba;

// Channel by channel: nothing else here does the same to each, so a method that takes what is to be done would be no plainer.
fn clamped(x: Rgba) -> Rgba
    ensures { result ≡ clamped_of x }
{
    Rgba {
        r: float::clamp(x.r),
        g: float::clamp(x.g),
        b: float::clamp(x.b),
        a: float::clamp(x.a),
    }
}

fn squares(x: Rgba, y: Rgba) -> f32
    ensures { result ≡ squares_of x y }
{
    let dr = x.r - y.r;
    let dg = x.g - y.g;
    let db = x.b - y.b;
    let da = x.a - y.a;
    dr * dr + dg * dg + db * db + da * da
}

// How far apart the clamped colours are.
pub fn distance(x: Rgba, y: Rgba) -> f32
    ensures { result ≡ distance_of x y }
{
    let a = clamped(x);
    let b = clamped(y);
    sqrt::root(squares(a, b)) / 2.0
}

// Whether the clamped colours differ by more than the threshold of the cutoff. This is tested here and in `is_near` alone.
pub fn stands_out(cutoff: f32, x: Rgba, y: Rgba) -> bool
    ensures { result ≡ exceeds cutoff x y }
{
    squares(clamped(x), clamped(y)) > cutoff
}

// Whether they differ by no more: a difference that is not a number is more.
pub fn is_near(cutoff: f32, x: Rgba, y: Rgba) -> bool
    ensures { result ≡ le (squares_of (clamped_of x) (clamped_of y)) cutoff }
{
    squares(clamped(x), clamped(y)) <= cutoff
}
