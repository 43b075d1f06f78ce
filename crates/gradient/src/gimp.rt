// GIMP segments: their check, the search for one, and their colour at t. Segment i has positions 3i.. (left, middle, right),
// channels 8i.. (left r g b a, right r g b a) and codes 2i.. (blending, colouring).
ghost use Rattle.std.specs.Prelude.{◌≡◌, ◌*◌, ◌≤◌, ◌<◌, length, get_or};
ghost use Rattle.refusals.specs.Limits.{most_segments};
ghost use Rattle.stops.specs.Answers.{Checks};
ghost use Rattle.gradient.specs.Gimp.{segments, carried_at, all_carried, gimp_shaped, gimp_check, segment_found, gimp_segment, off_domain, gimp_colour};

use crate::blending::segment_colour;
pub use crate::blending::{blend, blend_wave, place_along};
pub use crate::carried::is_carried;
pub use crate::hued::{blend_costly, is_costly};
use blend::{Rgba, utils};
use refusals::{MISSHAPEN, MOST_SEGMENTS, NOT_FINITE};
use stops::{BLACK, Checked, Kind};

// The codes carried: of blending, and of colouring.
pub const LINEAR: u8 = 0;

pub const CURVED: u8 = 1;

pub const SINUSOIDAL: u8 = 2;

pub const SPHERICAL_INCREASING: u8 = 3;

pub const SPHERICAL_DECREASING: u8 = 4;

pub const STEP: u8 = 5;

pub const RGB: u8 = 0;

pub const HSV_COUNTER_CLOCKWISE: u8 = 1;

pub const HSV_CLOCKWISE: u8 = 2;

// A segment: its ends and the point between them where the blend is half done, the colours at the ends, and the codes of
// how one turns into the other.
#[derive(Clone, Copy)]
pub struct Segment {
    pub left: f32,
    pub middle: f32,
    pub right: f32,
    pub lcolor: Rgba,
    pub rcolor: Rgba,
    pub blending: u8,
    pub colouring: u8,
}

// The same of segment i of the lists.
fn is_carried_at(kind: Kind, positions: &[f32], codes: &[u8], i: usize, n: usize) -> bool
    requires { (i < n) × (n ≤ most_segments) × (length positions.now ≡ 3 * n) × (length codes.now ≡ 2 * n) }
    ensures { result ≡ carried_at kind positions.now codes.now i }
{
    let p = 3 * i;
    let k = 2 * i;
    is_carried(
        kind,
        codes[k],
        codes[k + 1],
        positions[p],
        positions[p + 1],
        positions[p + 2],
    )
}

fn are_carried(kind: Kind, positions: &[f32], codes: &[u8], n: usize) -> bool
    requires { (n ≤ most_segments) × (length positions.now ≡ 3 * n) × (length codes.now ≡ 2 * n) }
    ensures { result ≡ all_carried kind n 0 positions.now codes.now }
{
    for i in 0..n {
        if !is_carried_at(kind, positions, codes, i, n) {
            return false;
        }
    }
    true
}

// n segments, and the lengths of what is lent for them.
fn is_shaped(n: usize, positions: usize, channels: usize, codes: usize) -> bool
    ensures { result ≡ gimp_shaped n positions channels codes }
{
    1 <= n && n <= MOST_SEGMENTS && positions == 3 * n && channels == 8 * n && codes == 2 * n
}

// All of refusal 1, then 2.
pub fn check(kind: Kind, positions: &[f32], channels: &[f32], codes: &[u8]) -> Checked
    ensures { Checks (gimp_check kind positions.now channels.now codes.now) result }
{
    let n = positions.len() / 3;
    if !is_shaped(n, positions.len(), channels.len(), codes.len())
        || !are_carried(kind, positions, codes, n)
    {
        Checked::Refused(MISSHAPEN)
    } else if !utils::all_finite(positions) || !utils::all_finite(channels) {
        Checked::Refused(NOT_FINITE)
    } else {
        Checked::Fine
    }
}

// The segment whose colour is taken: the first hit, and in a gap the one tried last.
pub fn find_segment(positions: &[f32], t: f32) -> usize
    ensures { result ≡ segment_found positions.now t }
{
    let mut low = 0;
    let mut high = positions.len() / 3;
    let mut tried = 0;
    while low < high {
        let mid = (low + high) / 2;
        tried = mid;
        let left = 3 * mid;
        let right = left + 2;
        if t > positions[right] {
            low = mid + 1;
        } else if t < positions[left] {
            high = mid;
        } else {
            return mid;
        }
    }
    tried
}

fn code(codes: &[u8], i: usize) -> u8
    ensures { result ≡ get_or codes.now i 0 }
{
    codes.get(i).copied().unwrap_or(0)
}

// Segment i of any slices at all: past the end of a slice a number is not-a-number and a code is 0.
fn segment_at(positions: &[f32], channels: &[f32], codes: &[u8], i: usize) -> Segment
    requires { i ≤ segments positions.now }
    ensures { result ≡ gimp_segment positions.now channels.now codes.now i }
{
    let left = stops::item(positions, 3 * i);
    let middle = stops::item(positions, 3 * i + 1);
    let right = stops::item(positions, 3 * i + 2);
    let lcolor = stops::colour(channels, 2 * i);
    let rcolor = stops::colour(channels, 2 * i + 1);
    let blending = code(codes, 2 * i);
    let colouring = code(codes, 2 * i + 1);
    Segment {
        left,
        middle,
        right,
        lcolor,
        rcolor,
        blending,
        colouring,
    }
}

pub fn is_off_domain(t: f32) -> bool
    ensures { result ≡ off_domain t }
{
    t < 0.0 || t > 1.0 || t.is_nan()
}

// The colour at t of any slices at all.
pub fn colour_at(positions: &[f32], channels: &[f32], codes: &[u8], t: f32) -> Rgba
    ensures { result ≡ gimp_colour positions.now channels.now codes.now t }
{
    if is_off_domain(t) {
        return BLACK;
    }
    let g = segment_at(positions, channels, codes, find_segment(positions, t));
    segment_colour(g, t)
}
