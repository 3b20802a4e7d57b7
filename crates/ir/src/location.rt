// Where in the source an operation was written.
use std::fmt;

#[derive(Clone, Copy, PartialEq, Eq)]
pub struct SourcePosition {
    pub line: u32,
    pub column: u32,
}

// An enum and no `Option`, since pliron's locations have further cases, and a line may leave its location out.
#[derive(Clone, Copy, PartialEq, Eq)]
pub enum Location {
    Unknown,
    SrcPos(SourcePosition),
}

// `12:7` for line 12 and column 7, and `-` where it is not known, as a course file writes it.
impl fmt::Display for Location {
    fn fmt<W: fmt::Write>(&self, f: &mut fmt::Formatter<W>) -> fmt::Result {
        match self {
            Location::Unknown => f.write_str("-"),
            Location::SrcPos(at) => write!(f, "{}:{}", at.line, at.column),
        }
    }
}
