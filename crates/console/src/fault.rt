// Why dayplan ends with neither a plan nor a refusal.
use std::{fmt, io};

#[derive(Debug, Drop)]
pub enum StreamFault {
    Input(io::Error),
    Output(io::Error),
}

impl fmt::Display for StreamFault {
    fn fmt<W: fmt::Write>(&self, f: &mut fmt::Formatter<W>) -> fmt::Result {
        match self {
            StreamFault::Input(e) => write!(f, "the input cannot be read: {e}"),
            StreamFault::Output(e) => write!(f, "the output cannot be written: {e}"),
        }
    }
}
