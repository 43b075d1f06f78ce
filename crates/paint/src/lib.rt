// The colour of a ramp at one point and at many. A ramp is lent as slices, checked and then read; every call answers for any
// slices at all.
#![tactic(auto)]

ghost use Rattle.std.specs.Prelude.{◌≡◌, ◌+◌, ◌*◌, ◌≤◌, length};
ghost use Rattle.std.proofs.lemmas.List.Edits.{sets};
ghost use Rattle.blend.specs.Channels.{channels_of};
ghost use Rattle.stops.specs.Near.{segment_for};
ghost use Rattle.stops.specs.Segments.{Segments};
ghost use Rattle.stops.specs.declared.Checked.TheVariants.{Fine};
ghost use Rattle.gradient.specs.Ramp.{check_of, colour_of};
ghost use Rattle.paint.specs.Canvas.{painted_over};
ghost use Rattle.paint.specs.Promises.{AtIs, PaintIs};
ghost use Rattle.paint.specs.inner.Steps.{stop_colour, Paintable};
ghost use Rattle.gradient.specs.Lent.{lent_ramp};

use blend::Rgba;
use gradient::Ramp;
use refusals::NO_ROOM;
use stops::{Checked, Kind, near, segments};

mod gimp;
mod pairs;

// The colour at t, or the number of the refusal.
#[derive(Clone, Copy)]
pub enum ColourAnswer {
    Colour(Rgba),
    Refused(u8),
}

// Every colour was painted, or the number of the refusal.
#[derive(Clone, Copy)]
pub enum Painted {
    Done,
    Refused(u8),
}

pub fn at(ramp: &Ramp<'_>, t: f32) -> ColourAnswer
    ensures { AtIs (lent_ramp ramp.now) t result }
{
    match ramp.check() {
        Checked::Fine => ColourAnswer::Colour(ramp.colour_at(t)),
        Checked::Refused(n) => ColourAnswer::Refused(n),
    }
}

// Stores a colour where there is room for it. `stops` has this store for any output: only a private function may ask for
// room, and the compiler does not see at each point that `paint` has tested it, so that store would cost each point a test.
// So it is with `colour` of `pairs`, and the colour that `stops` reads.
fn put_colour(out: &mut [f32], k: usize, c: Rgba)
    requires { k + 4 ≤ length out.old }
    ensures { out.new ≡ sets out.old k (channels_of c) }
{
    out[k] = c.r;
    out[k + 1] = c.g;
    out[k + 2] = c.b;
    out[k + 3] = c.a;
}

// Stops at ts. The pair of the last point is tried before the search.
fn paint_stops(kind: Kind, positions: &[f32], channels: &[f32], ts: &[f32], out: &mut [f32])
    requires { Paintable positions.now channels.now ts.now out.old }
    ensures { out.new ≡ painted_over (stop_colour kind positions.now channels.now) ts.now out.old }
{
    let span = pairs::span_of(positions.len());
    let mut k = 0;
    for (i, &t) in ts.iter().enumerate() {
        let place = pairs::find_place(positions, t, k, span);
        k = near::pair_or(place, k);
        let c = pairs::colour_in(kind, positions, channels, t, place);
        put_colour(out, 4 * i, c);
    }
}

// The segment of pair j, where s is that of pair k: out of the table, if it is there.
fn renewed(
    channels: &[f32],
    n: usize,
    s: [[f32; 4]; 4],
    k: usize,
    j: usize,
    table: &[[[f32; 4]; 4]],
) -> [[f32; 4]; 4]
    requires s_value { s ≡ segment_for channels.now n k }
    requires segments { Segments channels.now n 0 table.now }
    ensures { result ≡ segment_for channels.now n j }
{
    if j == k {
        s
    } else {
        segments::segment(channels, n, 0, table, j)
    }
}

// Catmull-Rom stops at ts, with a table of segments in hand. A segment is kept while the pair stays.
fn paint_catmull(
    positions: &[f32],
    channels: &[f32],
    ts: &[f32],
    out: &mut [f32],
    table: &[[[f32; 4]; 4]],
)
    requires paintable { Paintable positions.now channels.now ts.now out.old }
    requires segments { Segments channels.now (length positions.now) 0 table.now }
    ensures { out.new ≡ painted_over (stop_colour Kind.CatmullRom positions.now channels.now) ts.now out.old }
{
    let n = positions.len();
    let mut k = 1;
    let mut s = near::segment_for(channels, n, 1);
    for (i, &t) in ts.iter().enumerate() {
        let place = near::find_place(positions, t, k);
        let j = near::pair_or(place, k);
        let fresh = renewed(channels, n, s, k, j, table);
        s = fresh;
        k = j;
        let c = near::segment_colour(positions, channels, s, t, place);
        put_colour(out, 4 * i, c);
    }
}

// The same, the segments worked out once, as many as there is room for.
fn paint_tabled(
    positions: &[f32],
    channels: &[f32],
    ts: &[f32],
    out: &mut [f32],
    room: &mut [[[f32; 4]; 4]],
)
    requires { Paintable positions.now channels.now ts.now out.old }
    ensures { out.new ≡ painted_over (stop_colour Kind.CatmullRom positions.now channels.now) ts.now out.old }
{
    let m = segments::fill(channels, positions.len(), 0, room);
    paint_catmull(positions, channels, ts, out, &room[..m])
}

// Catmull-Rom stops at ts. A segment costs twelve roots, so a table pays where there are at least as many points as stops.
fn paint_cubics(positions: &[f32], channels: &[f32], ts: &[f32], out: &mut [f32])
    requires { Paintable positions.now channels.now ts.now out.old }
    ensures { out.new ≡ painted_over (stop_colour Kind.CatmullRom positions.now channels.now) ts.now out.old }
{
    if ts.len() < positions.len() {
        paint_catmull(positions, channels, ts, out, &[])
    } else if positions.len() <= segments::FEW {
        let mut few = [[[0.0f32; 4]; 4]; segments::FEW];
        paint_tabled(positions, channels, ts, out, &mut few)
    } else {
        let mut room = [[[0.0f32; 4]; 4]; segments::ROOM];
        paint_tabled(positions, channels, ts, out, &mut room)
    }
}

fn paint_all(ramp: &Ramp<'_>, ts: &[f32], out: &mut [f32])
    requires codes_value { check_of (lent_ramp ramp.now) ≡ Fine }
    requires ts_in_bounds { 4 * length ts.now ≤ length out.old }
    ensures { out.new ≡ painted_over (colour_of (lent_ramp ramp.now)) ts.now out.old }
{
    if gradient::is_gimp(ramp.kind) {
        gimp::paint(ramp.positions, ramp.channels, ramp.codes, ts, out)
    } else if segments::is_catmull_rom(ramp.kind) {
        paint_cubics(ramp.positions, ramp.channels, ts, out)
    } else {
        paint_stops(ramp.kind, ramp.positions, ramp.channels, ts, out)
    }
}

// Checks once, then writes the colours at ts into out, four channels for each.
pub fn paint(ramp: &Ramp<'_>, ts: &[f32], out: &mut [f32]) -> Painted
    ensures { PaintIs (lent_ramp ramp.now) ts.now out.old out.new result }
{
    match ramp.check() {
        Checked::Refused(n) => Painted::Refused(n),
        Checked::Fine => {
            if out.len() / 4 < ts.len() {
                slices::zero_from(out, 0);
                Painted::Refused(NO_ROOM)
            } else {
                paint_all(ramp, ts, out);
                Painted::Done
            }
        }
    }
}
