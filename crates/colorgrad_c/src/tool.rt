// The tool on bytes: what it prints for an input.
ghost use Rattle.std.specs.Prelude.{◌≡◌, length};
ghost use Rattle.desk.specs.Tool.{desk_of, desk_output};
ghost use Rattle.colorgrad_c.specs.inner.Tool.{bytes_of};

use desk::Desked;

fn bytes_of(desked: Desked) -> usize
    ensures { result ≡ bytes_of desked }
{
    match desked {
        Desked::Printed(bytes) | Desked::Short(bytes) => bytes,
    }
}

// How many bytes are printed. They are written where the output has room for all of them; else it is set to zero.
#[unsafe(no_mangle)]
pub extern "C" fn colorgrad_desk(input: &[u8], output: &mut [u8]) -> usize
    ensures value { result ≡ length (desk_of input.now) }
    ensures output_after { output.new ≡ desk_output (desk_of input.now) output.old }
{
    bytes_of(desk::desk(input, output))
}
