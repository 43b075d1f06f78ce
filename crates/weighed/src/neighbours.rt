// The lent positions and the f32 just below and just above each: three lists, of which the next is always the least.
ghost use Rattle.std.specs.Prelude.{◌≡◌, ◌<◌, length};
ghost use Rattle.weighed.specs.inner.Joining.{next_below, next_above, own_left, handed, NextBeside};

use crate::{BESIDE, LENT};
use float::{above, below};

// How many were taken of the f32 below each position, of the positions, and of the f32 above each.
#[derive(Clone, Copy)]
pub(crate) struct Taken {
    pub(crate) below: usize,
    pub(crate) lent: usize,
    pub(crate) above: usize,
}

// The next of them, and how many are taken with it. The widest comes first: so no copy of it begins beside a store, which it would
// wait for.
#[derive(Clone, Copy)]
pub(crate) struct Next {
    pub(crate) with: Taken,
    pub(crate) t: f32,
    pub(crate) mark: u8,
}

fn next_below(positions: &[f32], at: Taken) -> Next
    requires { at.below < length positions.now }
    ensures { result ≡ next_below positions.now at }
{
    let b = at.below;
    let with = Taken {
        below: b + 1,
        lent: at.lent,
        above: at.above,
    };
    Next {
        t: below(positions[b]),
        mark: BESIDE,
        with,
    }
}

fn next_above(positions: &[f32], at: Taken) -> Next
    requires { at.above < length positions.now }
    ensures { result ≡ next_above positions.now at }
{
    let a = at.above;
    let with = Taken {
        below: at.below,
        lent: at.lent,
        above: a + 1,
    };
    Next {
        t: above(positions[a]),
        mark: BESIDE,
        with,
    }
}

// The next neighbour: at a tie the one above.
fn next_beside(positions: &[f32], at: Taken) -> Option<Next>
    ensures { NextBeside positions.now at result }
{
    let n = positions.len();
    let b = at.below;
    let a = at.above;
    if n <= b {
        if n <= a {
            return None;
        }
        return Some(next_above(positions, at));
    }
    if n <= a {
        return Some(next_below(positions, at));
    }
    let x = next_below(positions, at);
    let y = next_above(positions, at);
    if x.t < y.t {
        return Some(x);
    }
    Some(y)
}

// The next of all, if there is one: at a tie the lent position.
pub(crate) fn next_own(positions: &[f32], at: Taken) -> Option<Next>
    ensures { own_left positions.now at ≡ handed (own_left positions.now) result }
{
    let x = next_beside(positions, at);
    let l = at.lent;
    if positions.len() <= l {
        return x;
    }
    let p = positions[l];
    if let Some(y) = x {
        if y.t < p {
            return x;
        }
    }
    let with = Taken {
        below: at.below,
        lent: l + 1,
        above: at.above,
    };
    Some(Next {
        t: p,
        mark: LENT,
        with,
    })
}
