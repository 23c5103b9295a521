// Why a line is not read.
use session::TextWord;
use std::alloc::AllocError;
use std::error::Error;
use std::fmt;

#[derive(Clone, Copy, Debug)]
pub enum LineFault<'a> {
    // The line was to have one thing, and had another there, or nothing.
    Expected {
        line: u64,
        what: &'static str,
        found: &'a [u8],
    },
    Memory,
}

// Written out, since the message is another where nothing was found.
impl fmt::Display for LineFault<'_> {
    fn fmt<W: fmt::Write>(&self, f: &mut fmt::Formatter<W>) -> fmt::Result {
        match *self {
            LineFault::Expected {
                line,
                what,
                found: [],
            } => write!(f, "line {line}: expected {what}, found nothing"),
            LineFault::Expected { line, what, found } => {
                write!(f, "line {line}: expected {what}, found {}", TextWord(found))
            }
            LineFault::Memory => write!(f, "no memory for a line"),
        }
    }
}

impl Error for LineFault<'_> {}

impl From<AllocError> for LineFault<'_> {
    fn from(_none: AllocError) -> Self {
        LineFault::Memory
    }
}
