// The leaves that a host compares by themselves: the square root, a cutoff, a threshold, a hold, and a token as a number.
ghost use Rattle.std.specs.Prelude.{◌≡◌};
ghost use Rattle.sqrt.specs.Root.{root_of};
ghost use Rattle.sqrt.specs.Cutoff.{IsCutoff};
ghost use Rattle.decimal.specs.Decimal.{read_of};
ghost use Rattle.decimal.specs.Long.{read_long_of};
ghost use Rattle.sampling.specs.Constants.{threshold_of};
ghost use Rattle.within.specs.Lists.{hold_of};
ghost use Rattle.colorgrad_c.specs.plain.Telling.{telling};
ghost use Rattle.colorgrad_c.specs.Leaves.{is_number, value_told};

use crate::plain::telling::tell;
use decimal::Token;
use linearize::Sampler;

fn tell_token(token: Token, value: &mut [f32]) -> u32
    ensures value { result ≡ is_number token }
    ensures value_value { value.new ≡ telling (value_told token) value.old }
{
    match token {
        Token::Number(x) => {
            tell(value, &[x]);
            1
        }
        Token::NoNumber => {
            tell(value, &[0.0]);
            0
        }
    }
}

#[unsafe(no_mangle)]
pub extern "C" fn colorgrad_root(x: f32) -> f32
    ensures { result ≡ root_of x }
{
    sqrt::root(x)
}

// For every f32 s: half the root of s is above t exactly when s is above the result.
#[unsafe(no_mangle)]
pub extern "C" fn colorgrad_cutoff(t: f32) -> f32
    ensures { IsCutoff t result }
{
    sqrt::half_root::cutoff(t)
}

// The threshold that the calls on records and lists work with where this one is asked for.
#[unsafe(no_mangle)]
pub extern "C" fn colorgrad_threshold(asked: f32) -> f32
    ensures { result ≡ threshold_of asked }
{
    let sampler = Sampler::new(asked);
    sampler.threshold
}

// The hold that the calls on lists within work with where this one and this threshold are asked for.
#[unsafe(no_mangle)]
pub extern "C" fn colorgrad_hold(asked: f32, threshold: f32) -> f32
    ensures { result ≡ hold_of threshold asked }
{
    within::hold_of(asked, threshold)
}

// 1 where the token is a number, else 0; tells the number, 0 if none.
#[unsafe(no_mangle)]
pub extern "C" fn colorgrad_token_told(text: &[u8], value: &mut [f32]) -> u32
    ensures value { result ≡ is_number (read_of text.now) }
    ensures value_value { value.new ≡ telling (value_told (read_of text.now)) value.old }
{
    tell_token(decimal::read(text), value)
}

// The same of a long token.
#[unsafe(no_mangle)]
pub extern "C" fn colorgrad_long_token_told(text: &[u8], value: &mut [f32]) -> u32
    ensures value { result ≡ is_number (read_long_of text.now) }
    ensures value_value { value.new ≡ telling (value_told (read_long_of text.now)) value.old }
{
    tell_token(decimal::read_long(text), value)
}
