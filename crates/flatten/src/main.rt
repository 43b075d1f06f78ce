// Reads a ramp from standard input, and writes its flattened stops, or why there are none.
#![tactic(auto)]

ghost use Rattle.std.specs.Prelude.{OnOk};
ghost use Rattle.std.specs.Io.KnownBytes.{Appends};
ghost use Rattle.desk.specs.Tool.{desk_of};

use desk::MOST_PRINTED;
use std::io;
use std::io::Write;
use streams::read_full;

// One byte more than an input may have, so that too many show.
const INPUT: usize = 16385;

// What is written is what the tool prints for these bytes.
fn print<W: Write>(out: &mut W, input: &[u8]) -> io::Result<()>
    ensures { OnOk result (Appends (W.contents out.old) (W.contents out.new) (desk_of input.now)) }
{
    let mut output = [0u8; MOST_PRINTED];
    let n = desk::print(input, &mut output);
    out.write_all(&output[..n])
}

fn main(rt: HostRuntime) -> io::Result<()> {
    let mut input = [0u8; INPUT];
    let n = read_full(&mut rt.stdin(), &mut input)?;
    print(&mut rt.stdout(), &input[..n])
}
