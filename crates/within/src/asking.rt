// Whether a point and another after it show what they must.
ghost use Rattle.std.specs.Prelude.{◌≤◌};
ghost use Rattle.within.specs.inner.Weighing.{Asking, Answers, MayShow, ShowsTo};
ghost use Rattle.gradient.specs.Lent.{lent_ramp};

use crate::block::{point_after, refill};
use crate::fair::{Allowed, shows};
use crate::lent::{Ahead, points_to};
use gradient::Ramp;
use sampling::Point;
use stops::Window;

// An answer, and the block in hand after it: that stands with a no as well, so this is no Option.
#[derive(Clone, Copy)]
pub(crate) struct Answer {
    pub(crate) yes: bool,
    pub(crate) w: Window,
}

// Whether a and b show the points from `from` up to `to`, block by block.
fn shows_to(
    ramp: &Ramp<'_>,
    offs: Allowed,
    a: Point,
    b: Point,
    ts: &[f32; 10753],
    marks: &[u8; 10753],
    w: Window,
    block: &mut [[f32; 4]; 1024],
    from: usize,
    to: usize,
    count: usize,
) -> Answer
    requires { MayShow (lent_ramp ramp.now) ts.now w block.old a b from to count }
    ensures { ShowsTo (lent_ramp ramp.now) offs ts.now marks.now a b from to block.new result }
{
    let mut i = from;
    let mut v = w;
    while i < to {
        v = refill(ramp, ts, v, i, count, block);
        let stop = to.min(v.base + v.count);
        if !shows(offs, a, b, ts, marks, block, v.base, i, stop) {
            return Answer { yes: false, w: v };
        }
        i = stop;
    }
    Answer { yes: true, w: v }
}

// Whether a and the r-th after it show what they must.
pub(crate) fn ask(
    ramp: &Ramp<'_>,
    offs: Allowed,
    a: Point,
    ts: &[f32; 10753],
    marks: &[u8; 10753],
    w: Window,
    block: &mut [[f32; 4]; 1024],
    at: Ahead,
    r: usize,
) -> Answer
    requires { Asking (lent_ramp ramp.now) ts.now w block.old a at × (1 ≤ r) }
    ensures { Answers (lent_ramp ramp.now) offs ts.now marks.now a at r block.new result }
{
    let k = points_to(marks, at, r);
    if k == 0 {
        return Answer { yes: false, w };
    }
    let from = at.from;
    let count = at.count;
    let end = at.end;
    let b = point_after(ramp, ts, marks, from, count, end, a.pair, k, w, block);
    let to = (from + k).min(count);
    shows_to(ramp, offs, a, b, ts, marks, w, block, from, to, count)
}
