// Reading the front of an input.
ghost use Rattle.std.specs.Prelude.{◌≡◌, ◌≤◌, ◌⊎◌, length, take, OnOk};
ghost use Rattle.std.specs.Io.KnownBytes.{Consumes, IsAtEnd};
ghost use Rattle.console.specs.Streams.{ReadsInto};

use std::io;
use std::io::{ErrorKind, Read};

// One byte more than the longest sheet file.
pub(crate) const INPUT: usize = 1289;

// Reads until the room is full or the input ends, and answers how many bytes it read.
pub(crate) fn read_first<R: Read>(input: &mut R, room: &mut [u8; INPUT]) -> io::Result<usize>
    ensures { ReadsInto (R.remaining input.old) (R.remaining input.new) room.new result }
{
    let (filled, read) = fill(input, room);
    match read {
        Ok(()) => Ok(filled),
        Err(e) => Err(e),
    }
}

// The same, and it tells how many bytes it read where a read fails too.
// The turns are counted so that it ends: an input that is interrupted without end gives `TimedOut`.
fn fill<R: Read>(input: &mut R, room: &mut [u8]) -> (usize, io::Result<()>)
    ensures bound { result.0 ≤ length room.new }
    ensures taken { Consumes (R.remaining input.old) (R.remaining input.new) (take result.0 room.new) }
    ensures whole { OnOk result.1 ((result.0 ≡ length room.new) ⊎ IsAtEnd (R.remaining input.new)) }
{
    let mut filled = 0;
    'reads: for _ in 0..u64::MAX {
        if filled >= room.len() {
            return (filled, Ok(()));
        }
        match input.read(&mut room[filled..]) {
            Ok(0) => return (filled, Ok(())),
            Ok(n) => filled += n,
            Err(e) => {
                if e.kind() != ErrorKind::Interrupted {
                    return (filled, Err(e));
                }
            }
        }
    }
    (filled, Err(io::Error::from(ErrorKind::TimedOut)))
}
