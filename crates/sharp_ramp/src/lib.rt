// How a sharp ramp is built: n colours, each a band, give 2n stops.
#![tactic(auto)]

ghost use Rattle.std.specs.Prelude.{◌≡◌, true, ◌++◌, ◌*◌, ◌<◌, ◌≤◌, length, take, drop};
ghost use Rattle.refusals.specs.Limits.{most_colours};
ghost use Rattle.sharp_ramp.specs.Sharp.{softness_of, inset_of, band_at, sharp_positions, sharp_channels, domain_fits, roomy, Builds};

use blend::utils;
use refusals::{MISSHAPEN, MOST_COLOURS, NOT_BUILT, NOT_FINITE};
use stops::is_steady;

// How many stops were written, or the number of the refusal.
#[derive(Clone, Copy)]
pub enum Built {
    Stops(usize),
    Refused(u8),
}

fn soften(s: f32) -> f32
    ensures { result ≡ softness_of s }
{
    if float::is_finite(s) {
        float::clamp(s)
    } else {
        0.1
    }
}

// How far a stop lies inside its band's end.
fn inset_of(min: f32, max: f32, s: f32, n: usize) -> f32
    ensures { result ≡ inset_of min max s n }
{
    soften(s) * (max - min) / float::from_whole(n as u64) / 4.0
}

// The position of stop j of 2n.
fn band(min: f32, max: f32, inset: f32, n: usize, j: usize) -> f32
    requires { (n ≤ most_colours) × (j < 2 * n) }
    ensures { result ≡ band_at min max inset n j }
{
    let points = (n + 1) as u16;
    let i = (j / 2) as u16;
    if j % 2 == 0 {
        let left = utils::linspace(min, max, points, i);
        if 0 < j { left + inset } else { left }
    } else {
        let right = utils::linspace(min, max, points, i + 1);
        if j + 1 < 2 * n { right - inset } else { right }
    }
}

// The positions of the 2n stops, in front.
fn write_positions(min: f32, max: f32, s: f32, n: usize, positions: &mut [f32])
    requires { (n ≤ most_colours) × (2 * n ≤ length positions.old) }
    ensures { take (2 * n) positions.new ≡ sharp_positions min max s n }
{
    let inset = inset_of(min, max, s, n);
    for j in 0..2 * n {
        positions[j] = band(min, max, inset, n, j);
    }
}

// Each colour twice.
fn write_channels(colours: &[f32], n: usize, channels: &mut [f32])
    requires { (n ≤ most_colours) × (length colours.now ≡ 4 * n) × (8 * n ≤ length channels.old) }
    ensures { channels.new ≡ sharp_channels colours.now n ++ drop (8 * n) channels.old }
{
    for i in 0..n {
        let colour = &colours[4 * i..4 * i + 4];
        channels[8 * i..8 * i + 4].copy_from_slice(colour);
        channels[8 * i + 4..8 * i + 8].copy_from_slice(colour);
    }
}

fn domain_fits(n: usize, min: f32, max: f32) -> bool
    ensures { result ≡ domain_fits n min max }
{
    1 <= n && n <= MOST_COLOURS && float::is_finite(min) && float::is_finite(max) && !(max < min)
}

// The channels of n colours, whole ones, and room for 2n stops.
fn is_roomy(colours: usize, n: usize, positions: usize, channels: usize) -> bool
    requires { n ≤ most_colours }
    ensures { result ≡ roomy colours n positions channels }
{
    colours == 4 * n && 2 * n <= positions && 8 * n <= channels
}

// A sharp ramp of the colours, in the lent outputs; past the last stop they keep what they hold. The
// positions are built aside first, since a refusal changes nothing.
pub fn build(
    colours: &[f32],
    min: f32,
    max: f32,
    softness: f32,
    positions: &mut [f32],
    channels: &mut [f32],
) -> Built
    ensures { Builds colours.now min max softness positions.old positions.new channels.old channels.new result }
{
    let n = colours.len() / 4;
    if !domain_fits(n, min, max) {
        return Built::Refused(NOT_BUILT);
    }
    let mut built = [0.0; 2 * MOST_COLOURS];
    let m = 2 * n;
    write_positions(min, max, softness, n, &mut built);
    if !is_steady(&built[..m], max) {
        return Built::Refused(NOT_BUILT);
    }
    if !is_roomy(colours.len(), n, positions.len(), channels.len()) {
        return Built::Refused(MISSHAPEN);
    }
    if !utils::all_finite(colours) {
        return Built::Refused(NOT_FINITE);
    }
    positions[..m].copy_from_slice(&built[..m]);
    write_channels(colours, n, channels);
    Built::Stops(m)
}
