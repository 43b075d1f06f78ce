// The kinds of ramp by their codes.
ghost use Rattle.std.specs.Prelude.{◌≡◌};
ghost use Rattle.colorgrad_c.specs.plain.Kinds.{kind_of};

use stops::Kind;

pub const LINEAR: u32 = 0;

pub const SMOOTHSTEP: u32 = 1;

pub const SHARP: u32 = 2;

pub const BASIS: u32 = 3;

pub const CATMULL_ROM: u32 = 4;

pub const GIMP: u32 = 5;

pub const GIMP_SAVED: u32 = 6;

// The kind that a code names.
#[tactic(auto, unfolding(crate::specs::plain::Kinds::kind_of))]
pub(crate) fn kind_of(code: u32) -> Option<Kind>
    ensures { result ≡ kind_of code }
{
    match code {
        LINEAR => Some(Kind::Linear),
        SMOOTHSTEP => Some(Kind::Smoothstep),
        SHARP => Some(Kind::Sharp),
        BASIS => Some(Kind::Basis),
        CATMULL_ROM => Some(Kind::CatmullRom),
        GIMP => Some(Kind::Gimp),
        GIMP_SAVED => Some(Kind::GimpSaved),
        _ => None,
    }
}
