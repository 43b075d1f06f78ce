// How far the next stop lies: as far as the question is answered yes.
ghost use Rattle.std.specs.Prelude.{◌*◌, ◌^◌, ◌≤◌};
ghost use Rattle.within.specs.inner.Weighing.{ahead_of, Asking, Reaches, StepsFrom};
ghost use Rattle.gradient.specs.Lent.{lent_ramp};

use crate::asking::ask;
use crate::fair::Allowed;
use crate::lent::{Ahead, to_lent};
use gradient::Ramp;
use sampling::Point;
use stops::Window;

// How far, and the block in hand.
#[derive(Clone, Copy)]
pub(crate) struct Reach {
    pub(crate) r: usize,
    pub(crate) w: Window,
}

// r doubled while the answer is yes, and then the halves.
fn reach_from(
    ramp: &Ramp<'_>,
    offs: Allowed,
    a: Point,
    ts: &[f32; 10753],
    marks: &[u8; 10753],
    w: Window,
    block: &mut [[f32; 4]; 1024],
    at: Ahead,
    k: usize,
    r: usize,
) -> Reach
    requires { Asking (lent_ramp ramp.now) ts.now w block.old a at × ((1 ≤ r) × (r * 2 ^ k ≤ 16384)) }
    ensures { Reaches (lent_ramp ramp.now) offs ts.now marks.now a at k r block.new result }
{
    if k == 0 {
        return Reach { r, w };
    }
    let twice = 2 * r;
    let p = ask(ramp, offs, a, ts, marks, w, block, at, twice);
    let pw = p.w;
    if !p.yes {
        return Reach { r, w: pw };
    }
    let x = reach_from(ramp, offs, a, ts, marks, pw, block, at, k - 1, twice);
    let xw = x.w;
    let sum = x.r + r;
    let q = ask(ramp, offs, a, ts, marks, xw, block, at, sum);
    let qw = q.w;
    if !q.yes {
        return Reach { r: x.r, w: qw };
    }
    Reach { r: sum, w: qw }
}

// How many points on the next one kept lies, and whether it is shown: it is kept either way, so this is no Option.
#[derive(Clone, Copy)]
pub(crate) struct Step {
    pub(crate) points: usize,
    pub(crate) shown: bool,
    pub(crate) w: Window,
}

// To a lent position, where the next one is shown; else to any point, and then one point on is asked of.
pub(crate) fn step_from(
    ramp: &Ramp<'_>,
    offs: Allowed,
    a: Point,
    ts: &[f32; 10753],
    marks: &[u8; 10753],
    w: Window,
    block: &mut [[f32; 4]; 1024],
    from: usize,
    count: usize,
    end: Point,
) -> Step
    requires { Asking (lent_ramp ramp.now) ts.now w block.old a (ahead_of from count end) }
    ensures { StepsFrom (lent_ramp ramp.now) offs a ts.now marks.now from count end block.new result }
{
    let own = Ahead {
        from,
        count,
        end,
        lent: true,
    };
    let p = ask(ramp, offs, a, ts, marks, w, block, own, 1);
    let pw = p.w;
    if p.yes {
        let x = reach_from(ramp, offs, a, ts, marks, pw, block, own, 14, 1);
        let xw = x.w;
        return Step {
            points: to_lent(marks, from, count, x.r),
            shown: true,
            w: xw,
        };
    }
    let all = Ahead {
        from,
        count,
        end,
        lent: false,
    };
    let y = reach_from(ramp, offs, a, ts, marks, pw, block, all, 14, 1);
    let yw = y.w;
    if 1 < y.r {
        return Step {
            points: y.r,
            shown: true,
            w: yw,
        };
    }
    let q = ask(ramp, offs, a, ts, marks, yw, block, all, 1);
    let qw = q.w;
    Step {
        points: 1,
        shown: q.yes,
        w: qw,
    }
}
