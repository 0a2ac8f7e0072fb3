// Writing a whole text.
ghost use Rattle.std.specs.Prelude.{◌≡◌, ◌≤◌, length, take, OnOk};
ghost use Rattle.std.specs.Io.KnownBytes.{Appends};
ghost use Rattle.console.specs.Streams.{WritesText};

use std::io;
use std::io::{ErrorKind, Write};

// Writes the text, and flushes what a writer kept back.
pub fn write_text<W: Write>(output: &mut W, text: &[u8]) -> io::Result<()>
    ensures { WritesText (W.contents output.old) (W.contents output.new) text.now result }
{
    let (_, sent) = send(output, text);
    match sent {
        Ok(()) => output.flush(),
        Err(e) => Err(e),
    }
}

// Writes until the text is written or a write fails, and tells how many bytes it wrote.
// The turns are counted so that it ends: an output that is interrupted without end gives `TimedOut`.
fn send<W: Write>(output: &mut W, text: &[u8]) -> (usize, io::Result<()>)
    ensures bound { result.0 ≤ length text.now }
    ensures written { Appends (W.contents output.old) (W.contents output.new) (take result.0 text.now) }
    ensures whole { OnOk result.1 (result.0 ≡ length text.now) }
{
    let mut sent = 0;
    'writes: for _ in 0..u64::MAX {
        if sent >= text.len() {
            return (sent, Ok(()));
        }
        match output.write(&text[sent..]) {
            Ok(0) => return (sent, Err(io::Error::from(ErrorKind::WriteZero))),
            Ok(n) => sent += n,
            Err(e) => {
                if e.kind() != ErrorKind::Interrupted {
                    return (sent, Err(e));
                }
            }
        }
    }
    (sent, Err(io::Error::from(ErrorKind::TimedOut)))
}
