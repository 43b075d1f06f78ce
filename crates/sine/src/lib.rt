// A factor bent by half a wave of the sine, as GIMP's sinusoidal segments have it: from a table, with a straight line between
// its entries.
#![tactic(auto)]

ghost use Rattle.std.specs.Prelude.{◌≡◌, ◌*◌, ◌^◌, ◌≤◌, ◌<◌};
ghost use Rattle.sine.specs.Table.{entry};
ghost use Rattle.sine.specs.inner.Sum.{nearer, less, sum};
ghost use Rattle.sine.specs.Wave.{index_of, line_of, wave_of};

use table::read;

mod table;

// 2^-24, the unit of the table.
const UNIT: f32 = 0.000000059604644775390625;

// How far i lies from the nearer end of the table.
fn from_end(i: usize) -> u64
    requires { i ≤ 1024 }
    ensures { result ≡ nearer i }
{
    if i <= 512 { i as u64 } else { 1024 - i as u64 }
}

// One step of the sum.
fn take_off(c: u64, p: u64, z: u64) -> u64
    requires { (p ≤ c) × (c < 2 ^ 44) × (z ≤ 2 ^ 18) }
    ensures { (result ≡ less c p z) × (result ≤ c) }
{
    c - p * z / 0x4_0000
}

// Entry j, in units of 2^-20 and not to the last of them: a sum of five powers of j * j, whose coefficients make it right to 0.008.
fn height(j: u64) -> u64
    requires { j ≤ 512 }
    ensures { (result ≡ sum j) × (result < 2 ^ 44) }
{
    let z = j * j;
    let a = take_off(8_077_093_793, 211_545_278, z);
    let b = take_off(183_513_982_833, a, z);
    let c = take_off(2_231_300_197_116, b, z);
    let d = take_off(10_851_744_792_723, c, z);
    d * z / 0x4_0000
}

// Entry i of the table: what the sum rounds to, which is quicker than a read. Where it is too near half-way between two whole
// numbers to tell which, the table is read: at 6 entries.
fn entry_at(i: usize) -> u32
    requires { i ≤ 1024 }
    ensures { result ≡ entry i }
{
    let h = height(from_end(i));
    let n = ((h + 0x7_f800) / 0x10_0000) as u32;
    if n != ((h + 0x8_0800) / 0x10_0000) as u32 {
        read(i)
    } else if i <= 512 {
        n
    } else {
        0x100_0000 - n
    }
}

// Which entry x lies at or after. By tests: `float::whole(x).clamp(0, 1024)` is the same, and makes the factor 6% slower.
fn index(x: f32) -> usize
    ensures { result ≡ index_of x }
{
    let z = float::whole(x);
    if z < 0 {
        0
    } else if z < 1024 {
        z as usize
    } else {
        1024
    }
}

// The straight line from entry i to the next.
fn line(i: usize, fraction: f32) -> f32
    requires { i < 1024 }
    ensures { result ≡ line_of i fraction }
{
    let low = entry_at(i);
    let high = entry_at(i + 1);
    let rise = float::from_whole((high - low) as u64);
    (float::from_whole(low as u64) + rise * fraction) * UNIT
}

// The factor, clamped to 0 to 1, bent: from 0 up to 1, slow at both ends. A NaN stays one.
pub fn wave(f: f32) -> f32
    ensures { result ≡ wave_of f }
{
    let c = float::clamp(f);
    let x = c * 1024.0;
    let i = index(x);
    if i == 1024 {
        1.0
    } else {
        line(i, x - float::from_whole(i as u64))
    }
}
