// A reader and a writer that do what a test asks of them.
use std::alloc::Global;
use std::io;
use std::io::{ErrorKind, Read, Write};

// Gives its bytes in pieces, each after an interruption; behind the last it fails, or it ends.
#[derive(Drop)]
pub struct Source<'a> {
    pub rest: &'a [u8],
    pub piece: usize,
    pub interrupted: bool,
    pub fails: bool,
}

impl Read for Source<'_> {
    fn read(&mut self, buf: &mut [u8]) -> io::Result<usize> {
        self.interrupted = !self.interrupted;
        if self.interrupted {
            return Err(io::Error::from(ErrorKind::Interrupted));
        }
        if self.rest.is_empty() && self.fails {
            return Err(io::Error::from(ErrorKind::ConnectionReset));
        }
        let count = self.rest.len().min(buf.len()).min(self.piece);
        let (front, rest) = self.rest.split_at(count);
        buf[..count].copy_from_slice(front);
        self.rest = rest;
        Ok(count)
    }
}

// Takes a few bytes at a time, each after an interruption, up to a limit; then it fails, or it takes none.
#[derive(Drop)]
pub struct Sink {
    pub taken: Vec<u8, Global>,
    pub piece: usize,
    pub limit: usize,
    pub interrupted: bool,
    pub fails: bool,
    pub flushes: bool,
}

impl Write for Sink {
    fn write(&mut self, buf: &[u8]) -> io::Result<usize> {
        self.interrupted = !self.interrupted;
        if self.interrupted {
            return Err(io::Error::from(ErrorKind::Interrupted));
        }
        let left = self.limit.saturating_sub(self.taken.len());
        if left == 0 && self.fails {
            return Err(io::Error::from(ErrorKind::BrokenPipe));
        }
        let count = left.min(buf.len()).min(self.piece);
        self.taken.extend_from_slice(&buf[..count])?;
        Ok(count)
    }

    fn flush(&mut self) -> io::Result<()> {
        if self.flushes {
            Ok(())
        } else {
            Err(io::Error::from(ErrorKind::StorageFull))
        }
    }
}
