// What lies between two stops: their colours mixed, by each kind of ramp.
#![tactic(auto)]

pub mod basis;
pub mod catmull_rom;
pub mod linear;
pub mod sharp;
pub mod smoothstep;
pub mod utils;

#[repr(C)]
#[derive(Clone, Copy)]
pub struct Rgba {
    pub r: f32,
    pub g: f32,
    pub b: f32,
    pub a: f32,
}

impl Rgba {
    // What f gives for each channel of two colours.
    pub(crate) fn zip_with<F: Fn(f32, f32) -> f32>(self, other: Rgba, f: F) -> Rgba
        requires { F.IsAlwaysCallable f }
        ensures r { F.post f self.r other.r result.r }
        ensures g { F.post f self.g other.g result.g }
        ensures b { F.post f self.b other.b result.b }
        ensures a { F.post f self.a other.a result.a }
    {
        Rgba {
            r: f(self.r, other.r),
            g: f(self.g, other.g),
            b: f(self.b, other.b),
            a: f(self.a, other.a),
        }
    }
}

#[derive(Clone, Copy)]
pub struct Stop {
    pub position: f32,
    pub colour: Rgba,
}
