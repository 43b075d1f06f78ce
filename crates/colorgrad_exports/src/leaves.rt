// The leaves that a host compares by themselves: the square root, a cutoff, a threshold, a hold, and a token as a number.
ghost use Rattle.std.specs.Prelude.{◌≡◌};
ghost use Rattle.sqrt.specs.Root.{root_of};
ghost use Rattle.sqrt.specs.Cutoff.{IsCutoff};
ghost use Rattle.decimal.specs.Decimal.{read_of};
ghost use Rattle.decimal.specs.Long.{read_long_of};
ghost use Rattle.sampling.specs.Constants.{threshold_of};
ghost use Rattle.within.specs.Lists.{hold_of};
ghost use Rattle.colorgrad_c.specs.plain.Telling.{telling};
ghost use Rattle.colorgrad_c.specs.Leaves.{is_number, value_told};

#[unsafe(no_mangle)]
pub extern "C" fn colorgrad_root(x: f32) -> f32
    ensures { result ≡ root_of x }
{
    colorgrad_c::leaves::colorgrad_root(x)
}

#[unsafe(no_mangle)]
pub extern "C" fn colorgrad_cutoff(t: f32) -> f32
    ensures { IsCutoff t result }
{
    colorgrad_c::leaves::colorgrad_cutoff(t)
}

#[unsafe(no_mangle)]
pub extern "C" fn colorgrad_threshold(asked: f32) -> f32
    ensures { result ≡ threshold_of asked }
{
    colorgrad_c::leaves::colorgrad_threshold(asked)
}

#[unsafe(no_mangle)]
pub extern "C" fn colorgrad_hold(asked: f32, threshold: f32) -> f32
    ensures { result ≡ hold_of threshold asked }
{
    colorgrad_c::leaves::colorgrad_hold(asked, threshold)
}

#[unsafe(no_mangle)]
pub extern "C" fn colorgrad_token_told(text: &[u8], value: &mut [f32]) -> u32
    ensures value { result ≡ is_number (read_of text.now) }
    ensures value_value { value.new ≡ telling (value_told (read_of text.now)) value.old }
{
    colorgrad_c::leaves::colorgrad_token_told(text, value)
}

#[unsafe(no_mangle)]
pub extern "C" fn colorgrad_long_token_told(text: &[u8], value: &mut [f32]) -> u32
    ensures value { result ≡ is_number (read_long_of text.now) }
    ensures value_value { value.new ≡ telling (value_told (read_long_of text.now)) value.old }
{
    colorgrad_c::leaves::colorgrad_long_token_told(text, value)
}
