// What the library says of itself: its version, and what each refusal and each verdict means, in one line of plain words.
ghost use Rattle.std.specs.Prelude.{◌≡◌, length};
ghost use Rattle.colorgrad_c.specs.plain.Name.{named};
ghost use Rattle.colorgrad_c.specs.About.{version, message_of, verdict_message_of};

#[unsafe(no_mangle)]
pub extern "C" fn colorgrad_version() -> u32
    ensures { result ≡ version }
{
    colorgrad_c::about::colorgrad_version()
}

#[unsafe(no_mangle)]
pub extern "C" fn colorgrad_message_told(refusal: u32, out: &mut [u8]) -> usize
    ensures value { result ≡ length (message_of refusal) }
    ensures out_value { out.new ≡ named (message_of refusal) out.old }
{
    colorgrad_c::about::colorgrad_message_told(refusal, out)
}

#[unsafe(no_mangle)]
pub extern "C" fn colorgrad_verdict_message_told(verdict: u32, out: &mut [u8]) -> usize
    ensures value { result ≡ length (verdict_message_of verdict) }
    ensures out_value { out.new ≡ named (verdict_message_of verdict) out.old }
{
    colorgrad_c::about::colorgrad_verdict_message_told(verdict, out)
}
