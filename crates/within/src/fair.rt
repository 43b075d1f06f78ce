// Whether the mix of two points shows others.
ghost use Rattle.std.specs.Prelude.{◌≡◌, ◌+◌, ◌-◌, ◌≤◌, ◌<◌};
ghost use Rattle.within.specs.Shown.{off_at, near_below};
ghost use Rattle.within.specs.inner.Weighing.{entry_at, point_fair, block_fair, all_from};

use blend::Rgba;
use blend::utils::interpolate_linear;
use difference::is_near;
use sampling::Point;
use weighed::SAMPLED;

// The cutoffs of the threshold and of the hold.
#[derive(Clone, Copy)]
pub(crate) struct Allowed {
    pub(crate) threshold: f32,
    pub(crate) hold: f32,
}

// How far off a list may be: by the threshold at the record's points, by the hold at the others.
fn off_at(offs: Allowed, mark: u8) -> f32
    ensures { result ≡ off_at offs.threshold offs.hold mark }
{
    if mark == SAMPLED {
        offs.threshold
    } else {
        offs.hold
    }
}

fn is_fair(offs: Allowed, mark: u8, a: Point, b: Point, x: Point) -> bool
    ensures { result ≡ point_fair (near_below offs.threshold offs.hold) mark a b x }
{
    let foretold = interpolate_linear(a.colour, b.colour, (x.t - a.t) / (b.t - a.t));
    is_near(off_at(offs, mark), x.colour, foretold)
}

// The colour of an entry of a block.
pub(crate) fn colour_of(block: &[[f32; 4]; 1024], i: usize) -> Rgba
    requires { i < 1024 }
    ensures { result ≡ entry_at block.now i }
{
    let c = block[i];
    Rgba {
        r: c[0],
        g: c[1],
        b: c[2],
        a: c[3],
    }
}

// Whether a and b show the points `from` to `to`, whose colours are in a block that starts at the point `base`.
pub(crate) fn shows(
    offs: Allowed,
    a: Point,
    b: Point,
    ts: &[f32; 10753],
    marks: &[u8; 10753],
    block: &[[f32; 4]; 1024],
    base: usize,
    from: usize,
    to: usize,
) -> bool
    requires { (base ≤ from) × ((to ≤ base + 1024) × (to ≤ 10753)) }
    ensures { result ≡ all_from (block_fair (near_below offs.threshold offs.hold) a b ts.now marks.now block.now base) from (to - from) }
{
    (from..to).all(|i| {
        let x = Point {
            colour: colour_of(block, i - base),
            t: ts[i],
            pair: 0,
        };
        is_fair(offs, marks[i], a, b, x)
    })
}
