// Document 01's proof prints, worked out with the library's calls, a print to a line: what is asked, a tab, the answer.
// A number is 8 hex digits of its bits.
#![tactic(auto)]

ghost use Rattle.std.specs.Prelude.{◌+◌, ◌^◌, ◌<◌};

use crate::show::{bits, refused, row};
use crate::texts::counted;
use colorgrad::Ramp;
use decimal::Token;
use linearize::{Listed, Sampler};
use paint::ColourAnswer;
use sharp_ramp::Built;
use std::io;
use stops::Kind;
use streams::StandardOutput;

mod show;
mod texts;

// The first channel of a ramp at t.
fn red(out: &mut StandardOutput, label: &str, ramp: &Ramp<'_>, t: f32) {
    write!(out, "{label}\t");
    match colorgrad::at(ramp, t) {
        ColourAnswer::Colour(c) => bits(out, c.r),
        ColourAnswer::Refused(n) => refused(out, n),
    }
    writeln!(out);
}

// Stops from black at 0 to white at 1.
fn ramp(out: &mut StandardOutput, label: &str, kind: Kind, t: f32) {
    let positions = [0.0f32, 1.0];
    let channels = [0.0f32, 0.0, 0.0, 1.0, 1.0, 1.0, 1.0, 1.0];
    let ramp = Ramp {
        positions: &positions,
        channels: &channels,
        codes: b"",
        kind,
    };
    red(out, label, &ramp, t);
}

fn ramps(out: &mut StandardOutput) {
    ramp(out, "linear 0 to 1 at 0.25", Kind::Linear, 0.25);
    ramp(out, "smoothstep 0 to 1 at 0.25", Kind::Smoothstep, 0.25);
    ramp(out, "basis 0, 1 at 0.5", Kind::Basis, 0.5);
    ramp(out, "Catmull-Rom 0, 1 at 0.25", Kind::CatmullRom, 0.25);
}

fn sharp(out: &mut StandardOutput) {
    let colours = [0.0f32, 0.0, 0.0, 1.0, 1.0, 1.0, 1.0, 1.0];
    let mut positions = [9.0f32; 4];
    let mut channels = [9.0f32; 16];
    write!(out, "sharp, 2 colours, softness 0.5 on 0..1\tpositions");
    match colorgrad::build(&colours, 0.0, 1.0, 0.5, &mut positions, &mut channels) {
        Built::Stops(_) => row(out, &positions),
        Built::Refused(n) => refused(out, n),
    }
    writeln!(out);
}

fn root(out: &mut StandardOutput, label: &str, pattern: u32) {
    write!(out, "{label}\t");
    bits(out, sqrt::root(float::from_bits(pattern)));
    writeln!(out);
}

fn token(out: &mut StandardOutput, label: &str, s: &[u8]) {
    write!(out, "{label}\t");
    match decimal::read(s) {
        Token::Number(x) => bits(out, x),
        Token::NoNumber => write!(out, "no number"),
    }
    writeln!(out);
}

// Two GIMP segments that meet: their reds tell which is taken.
fn meeting(out: &mut StandardOutput) {
    let positions = [0.0f32, 0.25, 0.5, 0.5, 0.75, 1.0];
    let mut channels = [0.0f32; 16];
    channels[4] = 0.25;
    channels[8] = 0.75;
    channels[12] = 1.0;
    let codes = [0u8; 4];
    let ramp = Ramp {
        positions: &positions,
        channels: &channels,
        codes: &codes,
        kind: Kind::Gimp,
    };
    red(out, "GIMP 0..0.5 and 0.5..1 at 0.5", &ramp, 0.5);
}

// One from black to red, so that the red is the factor.
fn bent(out: &mut StandardOutput) {
    let positions = [0.0f32, 0.25, 1.0];
    let channels = [0.0f32, 0.0, 0.0, 1.0, 1.0, 0.0, 0.0, 1.0];
    let codes = [0u8; 2];
    let ramp = Ramp {
        positions: &positions,
        channels: &channels,
        codes: &codes,
        kind: Kind::Gimp,
    };
    red(out, "GIMP middle 0.25 at 0.625", &ramp, 0.625);
}

// Two such with a gap between them.
fn parted(out: &mut StandardOutput) {
    let positions = [0.0f32, 0.125, 0.25, 0.75, 0.875, 1.0];
    let mut channels = [0.0f32; 16];
    channels[4] = 1.0;
    channels[12] = 1.0;
    let codes = [0u8; 4];
    let ramp = Ramp {
        positions: &positions,
        channels: &channels,
        codes: &codes,
        kind: Kind::Gimp,
    };
    red(out, "GIMP gap 0.25..0.75 at 0.5", &ramp, 0.5);
}

// Two stops at 0.5, flattened: the positions and the channels.
fn pair(out: &mut StandardOutput) {
    let positions = [0.5f32, 0.5];
    let channels = [0.25f32, 0.0, 0.0, 1.0, 0.75, 0.0, 0.0, 1.0];
    let mut rows = [0.0f32; Sampler::CELLS * Sampler::ROW];
    let mut counts = [0u8; Sampler::CELLS];
    let mut marks = [0u32; Sampler::MARKS];
    let mut places = [9.0f32; 2];
    let mut colours = [9.0f32; 8];
    write!(out, "two stops at 0.5\t");
    let ramp = Ramp {
        positions: &positions,
        channels: &channels,
        codes: b"",
        kind: Kind::Linear,
    };
    match colorgrad::flatten(
        &ramp,
        Sampler::DEFAULT,
        &mut rows,
        &mut counts,
        &mut marks,
        &mut places,
        &mut colours,
    ) {
        Listed::Done { stops, evaluations } => {
            write!(out, "{stops} stops, {evaluations} evaluations, positions");
            row(out, &places);
            write!(out, ", channels");
            row(out, &colours);
        }
        Listed::Refused(n) => refused(out, n),
    }
    writeln!(out);
}

// P stops of one place, with C channels.
fn many_stops<const P: usize, const C: usize>(out: &mut StandardOutput, label: &str)
    requires { P + C < 2 ^ 32 }
{
    let positions = [0.5f32; P];
    let channels = [0.25f32; C];
    let ramp = Ramp {
        positions: &positions,
        channels: &channels,
        codes: b"",
        kind: Kind::Linear,
    };
    red(out, label, &ramp, 0.5);
}

fn main(rt: HostRuntime) -> io::Result<()> {
    let mut out = StandardOutput::new(rt.stdout());
    ramps(&mut out);
    sharp(&mut out);
    root(&mut out, "root of 2", 0x40000000);
    root(&mut out, "root of 2^-149", 1);
    token(&mut out, "0.1", b"0.1");
    token(&mut out, "16777217", b"16777217");
    meeting(&mut out);
    bent(&mut out);
    parted(&mut out);
    pair(&mut out);
    many_stops::<2048, 8192>(&mut out, "2048 stops");
    many_stops::<2049, 8196>(&mut out, "2049 stops");
    token(&mut out, "18 digits", b"123456789012345678");
    token(&mut out, "19 digits", b"1234567890123456789");
    counted(&mut out, "count 256", b"GIMP Gradient\nName: many\n256\n");
    counted(&mut out, "count 257", b"GIMP Gradient\nName: many\n257\n");
    out.end()
}
