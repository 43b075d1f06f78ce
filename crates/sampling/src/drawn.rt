// Catmull-Rom pairs that are drawn: a segment and its chords, which go with the points. No point between the ends of a stretch
// was evaluated before, so a pair that is drawn already is that of an end, and each is drawn once.
ghost use Rattle.std.specs.Prelude.{◌≡◌, cond, ◌<◌};
ghost use Rattle.blend.specs.Chords.{chords_of};
ghost use Rattle.sampling.specs.Segments.{drawn_of, curve_of, chords_at, follows, drawn_between, redrawn};

use blend::{Rgba, catmull_rom};
use stops::{colour, left_of, less, right_of};

// The rows of a drawn pair: four of its segment, one a channel, and then its chords.
const BEFORE: usize = 4;

const WITHIN: usize = 5;

const AFTER: usize = 6;

fn chords_at(s: &[[f32; 4]; 7], i: usize) -> Rgba
    requires { i < 7 }
    ensures { result ≡ chords_at s.now i }
{
    let c = s[i];
    Rgba {
        r: c[0],
        g: c[1],
        b: c[2],
        a: c[3],
    }
}

// The segment of a drawn pair.
pub(crate) fn curve_of(s: &[[f32; 4]; 7]) -> [[f32; 4]; 4]
    ensures { result ≡ curve_of s.now }
{
    [s[0], s[1], s[2], s[3]]
}

fn with_chords(s: [[f32; 4]; 4], before: Rgba, within: Rgba, after: Rgba) -> [[f32; 4]; 7]
    ensures { result ≡ drawn_of s before within after }
{
    [
        s[0],
        s[1],
        s[2],
        s[3],
        [before.r, before.g, before.b, before.a],
        [within.r, within.g, within.b, within.a],
        [after.r, after.g, after.b, after.a],
    ]
}

// Whether pair k of n stops comes after pair i.
#[tactic(auto, unfolding(crate::specs::Segments::follows))]
fn comes_after(n: usize, i: usize, k: usize) -> bool
    ensures { result ≡ follows n i k }
{
    i != 0 && k < n && i < k && k - i == 1
}

// The chords of two neighbours: those in a row of s, if they are there.
fn chords_or(there: bool, s: &[[f32; 4]; 7], i: usize, p: Rgba, q: Rgba) -> Rgba
    requires { i < 7 }
    ensures { result ≡ cond there (chords_at s.now i) (chords_of p q) }
{
    if there {
        chords_at(s, i)
    } else {
        catmull_rom::chords(p, q)
    }
}

// The chords within a pair: those after the pair before it, or those before the pair after it, if one of these is in hand.
fn chords_within(
    behind: bool,
    s: &[[f32; 4]; 7],
    ahead: bool,
    u: &[[f32; 4]; 7],
    p: Rgba,
    q: Rgba,
) -> Rgba
    ensures { result ≡ cond behind (chords_at s.now 6) (cond ahead (chords_at u.now 4) (chords_of p q)) }
{
    if behind {
        chords_at(s, AFTER)
    } else {
        chords_or(ahead, u, BEFORE, p, q)
    }
}

// Draws pair k, with the pairs i and j in hand: each chord is a root for every channel, and neighbours share two of their three.
fn draw_between(
    channels: &[f32],
    n: usize,
    i: usize,
    s: &[[f32; 4]; 7],
    j: usize,
    u: &[[f32; 4]; 7],
    k: usize,
) -> [[f32; 4]; 7]
    ensures { result ≡ drawn_between channels.now n i s.now j u.now k }
{
    let behind = comes_after(n, i, k);
    let ahead = comes_after(n, k, j);
    let p = colour(channels, less(k));
    let q = colour(channels, k);
    let left = left_of(channels, k, p, q);
    let right = right_of(channels, n, k, p, q);
    let before = chords_or(behind, s, WITHIN, left, p);
    let within = chords_within(behind, s, ahead, u, p, q);
    let after = chords_or(ahead, u, WITHIN, q, right);
    let curve = catmull_rom::draw_segment(left, p, q, right, before, within, after);
    with_chords(curve, before, within, after)
}

// Pair k, with the pairs i and j in hand. For no pair it is what is in hand.
#[tactic(auto, unfolding(crate::specs::Segments::redrawn))]
pub(crate) fn redraw(
    channels: &[f32],
    n: usize,
    i: usize,
    s: &[[f32; 4]; 7],
    j: usize,
    u: &[[f32; 4]; 7],
    k: usize,
) -> [[f32; 4]; 7]
    ensures { result ≡ redrawn channels.now n i s.now j u.now k }
{
    if k == 0 || k == i {
        *s
    } else if k == j {
        *u
    } else {
        draw_between(channels, n, i, s, j, u, k)
    }
}

// Goes on from pair i, which s has, to pair k.
#[tactic(auto, unfolding(crate::specs::Segments::redrawn))]
pub(crate) fn follow(channels: &[f32], n: usize, i: usize, k: usize, s: &mut [[f32; 4]; 7])
    ensures { s.new ≡ redrawn channels.now n i s.old 0 s.old k }
{
    if k != 0 && k != i {
        let held = *s;
        *s = draw_between(channels, n, i, &held, 0, &held, k);
    }
}
