// The points up to the one that is asked of: the next lent position but so many, or the next point but so many.
ghost use Rattle.std.specs.Prelude.{◌≡◌, true, cond, [], ◌-◌, ◌≤◌, eqb};
ghost use Rattle.weighed.specs.Points.{lent_mark};
ghost use Rattle.within.specs.inner.Weighing.{points_to, sites_from};

use sampling::Point;
use weighed::LENT;

// Of `left` lent positions that are to come those after a point.
fn left_after(mark: u8, left: usize) -> usize
    requires { 1 ≤ left }
    ensures { result ≡ cond (eqb mark lent_mark) (left - 1) left }
{
    if mark == LENT { left - 1 } else { left }
}

// The points up to the r-th lent position from `from` on, max last; 0 where there is none.
pub(crate) fn to_lent(marks: &[u8; 10753], from: usize, count: usize, r: usize) -> usize
    requires { (from ≤ count) × (count ≤ 10753) }
    ensures { result ≡ points_to true (sites_from [] marks.now from (count - from)) r }
{
    if r == 0 {
        return 0;
    }
    let mut left = r;
    for i in from..count {
        let mark = marks[i];
        if (mark == LENT) & (left == 1) {
            return i - from + 1;
        }
        left = left_after(mark, left);
    }
    if left == 1 { count - from + 1 } else { 0 }
}

// What lies ahead: where the points left begin, how many there are in all, max, and whether lent positions alone are asked.
#[derive(Clone, Copy)]
pub(crate) struct Ahead {
    pub(crate) from: usize,
    pub(crate) count: usize,
    pub(crate) end: Point,
    pub(crate) lent: bool,
}

// The points up to the r-th that is asked of; 0 where there is none.
pub(crate) fn points_to(marks: &[u8; 10753], at: Ahead, r: usize) -> usize
    requires { (at.from ≤ at.count) × (at.count ≤ 10753) }
    ensures { result ≡ points_to at.lent (sites_from [] marks.now at.from (at.count - at.from)) r }
{
    if at.lent {
        to_lent(marks, at.from, at.count, r)
    } else if r <= at.count - at.from + 1 {
        r
    } else {
        0
    }
}
