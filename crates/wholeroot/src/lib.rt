// The whole number nearest to the root of a whole number: guessed from a table, tested, and where the guess is off, walked to.
#![tactic(auto)]

ghost use Rattle.std.specs.Prelude.{◌≡◌, ◌^◌, ◌<◌};
ghost use Rattle.wholeroot.specs.WholeRoot.{nearest_whole};

mod table;

use table::piece;

// Up to here the nearest whole number is below 2 ^ 32, whose square would not fit: 2 ^ 32 - 1 times 2 ^ 32.
const LAST: u64 = 0xffff_ffff_0000_0000;

// How high the parabola of a piece is after `done` of its 2 ^ 17 steps: from its start up, by a slope that falls to the
// one at its end.
fn arc(start: u32, slope: u32, fall: u32, done: u64) -> u64
    requires { done < 2 ^ 17 }
    ensures { result < 2 ^ 32 }
{
    let left = 0x1_ffff - done;
    let steep = slope as u64 + left * fall as u64 / 0x1_0000;
    (start as u64 * 0x100_0000 + done * steep) / 0x1_0000_0000
}

// A guess at a root of 24 digits. The last 24 bits of `at` say where, as they stand in the pattern of the f32 whose root
// it is: the exponent's last bit and the first 6 digits choose one of 128 pieces, the other 17 digits are how far along it.
// Its closeness is not promised: where it is off, `nearest_root` takes longer and gives the same answer.
fn guess(at: u32) -> u64
    ensures { result < 2 ^ 32 }
{
    let p = piece(at / 0x2_0000 % 128);
    arc(p[0], p[1], p[2], (at % 0x2_0000) as u64)
}

// The whole number nearest to the root of n, by steps from any start.
fn walk_to_root(n: u64, start: u64) -> u64
    requires { start < 2 ^ 32 }
    ensures { result ≡ nearest_whole n }
{
    if n == 0 {
        return 0;
    }
    if LAST < n {
        return 0x1_0000_0000;
    }
    let mut q = start;
    while n <= q * q - q {
        q -= 1;
    }
    while q * q + q < n {
        q += 1;
    }
    q
}

// The whole number nearest to the root of n. `at` says where to guess it: any other gives the same answer, but later.
// The guess q is the answer where q * q - q < n and n <= q * q + q, that is where q * q + q - n is at least 0 and below
// 2 * q. One comparison tells both, since a difference below 0 wraps to a number that is larger.
pub fn nearest_root(n: u64, at: u32) -> u64
    ensures { result ≡ nearest_whole n }
{
    let q = guess(at);
    if (q * q + q).wrapping_sub(n) < 2 * q {
        q
    } else {
        walk_to_root(n, q)
    }
}
