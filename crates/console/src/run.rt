// What dayplan does when it is called with no argument.
ghost use Rattle.std.specs.Prelude.{◌≤◌, length, take};
ghost use Rattle.console.specs.Runs.{Runs};
ghost use Rattle.reply.specs.Replies.{Text};

use crate::fault::StreamFault;
use crate::reading::{INPUT, read_first};
use crate::writing::write_text;
use reply::reply::{Replied, reply};
use std::io::{Read, Write};

// Room for the list of 256 lots.
const OUTPUT: usize = 8192;

// Reads a sheet file, and writes the list of its plan or the line of its refusal.
pub fn run<R: Read, W: Write>(input: &mut R, output: &mut W) -> Result<Replied, StreamFault>
    ensures { Runs (R.remaining input.old) (R.remaining input.new)
        (W.contents output.old) (W.contents output.new) result }
{
    let mut file = [0; INPUT];
    let length = match read_first(input, &mut file) {
        Ok(length) => length,
        Err(e) => return Err(StreamFault::Input(e)),
    };
    let mut room = [0; OUTPUT];
    let (told, bytes) = text_for(&file[..length], &mut room);
    match write_text(output, &room[..bytes]) {
        Ok(()) => Ok(told),
        Err(e) => Err(StreamFault::Output(e)),
    }
}

// The text for a file, which the room always holds, and how many bytes it has.
fn text_for(file: &[u8], room: &mut [u8; OUTPUT]) -> (Replied, usize)
    ensures fits { result.1 ≤ length room.new }
    ensures text { Text file.now (take result.1 room.new) result.0 }
{
    let Ok(told) = reply(file, room) else {
        unreachable!()
    };
    match told {
        Replied::Plan(bytes) => (told, bytes),
        Replied::Refusal(bytes) => (told, bytes),
    }
}
