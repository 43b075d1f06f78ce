// The tool on bytes: what it prints for an input.
ghost use Rattle.std.specs.Prelude.{◌≡◌, length};
ghost use Rattle.desk.specs.Tool.{desk_of, desk_output};

#[unsafe(no_mangle)]
pub extern "C" fn colorgrad_desk(input: &[u8], output: &mut [u8]) -> usize
    ensures value { result ≡ length (desk_of input.now) }
    ensures output_after { output.new ≡ desk_output (desk_of input.now) output.old }
{
    colorgrad_c::tool::colorgrad_desk(input, output)
}
