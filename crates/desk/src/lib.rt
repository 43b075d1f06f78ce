// The tool: from the bytes of its input to the bytes that it prints.
#![tactic(auto)]

ghost use Rattle.text.specs.Output.{Puts};
ghost use Rattle.desk.specs.Tool.{desk_of, Desks, Prints};
ghost use Rattle.desk.specs.inner.Steps.{Says, Room};

use calls::{ROOM, list_of};
use entries::reading::{MOST_KEPT, read};
use refusals::MISSHAPEN;
use slices::zero_bytes;
use writing::{Reply, write};

mod calls;

// No answer is longer: 1,000 lines of 50 bytes after a first line of at most 29.
pub const MOST_PRINTED: usize = 50029;

// How many bytes are printed, and whether the output holds them.
#[derive(Clone, Copy)]
pub enum Desked {
    Printed(usize),
    Short(usize),
}

// What there is to say of the input, and a list of it in what is lent.
fn reply_to(input: &[u8], places: &mut [f32], colours: &mut [f32]) -> Reply
    requires { Room places.old colours.old }
    ensures { Says (desk_of input.now) result places.new colours.new }
{
    let mut positions = [0.0f32; MOST_KEPT];
    let mut channels = [0.0f32; 4 * MOST_KEPT];
    match read(input, &mut positions, &mut channels) {
        Err(unread) => Reply::Unread(unread.line),
        Ok(asked) => {
            let stops = asked.stops;
            // Those beyond were read and not kept.
            if MOST_KEPT < stops {
                return Reply::Refused(MISSHAPEN);
            }
            let m = 4 * stops;
            list_of(
                asked.kind,
                asked.threshold,
                asked.edited,
                &positions[..stops],
                &channels[..m],
                places,
                colours,
            )
        }
    }
}

// What is printed, as far as the output holds it; and how many bytes that is.
fn answer(input: &[u8], output: &mut [u8]) -> usize
    ensures { Puts output.old output.new 0 (desk_of input.now) result }
{
    let mut positions = [0.0f32; ROOM];
    let mut channels = [0.0f32; 4 * ROOM];
    let reply = reply_to(input, &mut positions, &mut channels);
    write(output, reply, &positions, &channels)
}

// Writes what the tool prints for the input. An output too short for it is set to zero.
pub fn desk(input: &[u8], output: &mut [u8]) -> Desked
    ensures { Desks input.now output.old output.new result }
{
    let n = answer(input, output);
    if output.len() < n {
        zero_bytes(output);
        return Desked::Short(n);
    }
    Desked::Printed(n)
}

// The same in an output that holds every answer: how many bytes are printed.
pub fn print(input: &[u8], output: &mut [u8; MOST_PRINTED]) -> usize
    ensures { Prints input.now output.old output.new result }
{
    answer(input, output)
}
