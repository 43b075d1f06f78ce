// The correctly rounded square root of an f32, for every f32, worked out from its bits.
#![tactic(auto)]

ghost use Rattle.std.specs.Prelude.{◌≡◌, ◌*◌, ◌<◌, ◌≤◌, ◌^◌};
ghost use Rattle.sqrt.specs.Root.{nearest_root, root_of};
ghost use Rattle.sqrt.specs.inner.Steps.{Rootable, StandsFor};

pub mod half_root;

use float::{FIELD, INFINITY, SIGN};
use wholeroot::nearest_root;

// What a root is taken of: n * 4 ^ k. The root is guessed at the pattern `at`.
#[derive(Clone, Copy)]
struct Radicand {
    n: u64,
    k: u32,
    at: u32,
}

// That of the pattern b of a number that is not subnormal. It has 24 digits; where the exponent's field is even, n has
// one more. Half of the exponent is the root's.
fn normal(b: u32) -> Radicand
    requires { (0x80_0000 ≤ b) × (b < 0x7f80_0000) }
    ensures { StandsFor b result.n result.k }
{
    let mut s = b % (2 * FIELD);
    if s < FIELD {
        s = 2 * s + 2 * FIELD;
    }
    Radicand {
        n: s as u64 * FIELD as u64,
        k: (b / FIELD + 125) / 2,
        at: b,
    }
}

// That of the pattern b of a subnormal. Moved up by z, as its leading zeros say, b has 24 digits. Half of c is the root's
// exponent; where c is odd, n has one digit more.
fn subnormal(b: u32) -> Radicand
    requires { (0 < b) × (b < 0x80_0000) }
    ensures { StandsFor b result.n result.k }
{
    let z = b.leading_zeros() - 8;
    let c = 128 - z;
    let s = b << z;
    Radicand {
        n: (s as u64) << (23 + c % 2),
        k: c / 2 - 1,
        at: s + c % 2 * FIELD,
    }
}

// That of the pattern b of a finite number above zero.
fn read(b: u32) -> Radicand
    requires { (0 < b) × (b < 0x7f80_0000) }
    ensures { StandsFor b result.n result.k }
{
    if b < FIELD { subnormal(b) } else { normal(b) }
}

// The root of a radicand. With one caller the compiler puts it in place.
fn root_of(n: u64, k: u32, at: u32) -> f32
    requires { Rootable n k }
    ensures { result ≡ nearest_root (n * 4 ^ k) }
{
    let q = nearest_root(n, at) as u32;
    f32::from_bits(k * FIELD + q)
}

// The f32 nearest to the root of x, a tie to the even one. -0, +0 and infinity give themselves; below zero, and
// not-a-number, give not-a-number.
pub fn root(x: f32) -> f32
    ensures { result ≡ root_of x }
{
    if x != x {
        return x;
    }
    let b = x.to_bits();
    if 0 < b && b < INFINITY {
        let a = read(b);
        root_of(a.n, a.k, a.at)
    } else if b <= SIGN {
        x
    } else {
        f32::NAN
    }
}
