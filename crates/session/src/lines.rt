// The lines of a course file.
use ir::location::{Location, SourcePosition};
use text::words::next_word;

// the last column that a location tells
const LAST_COLUMN: usize = 1_000_000_000;

// A line, by its number, counted from 1, and its bytes without what ends it.
#[derive(Clone, Copy)]
pub struct Line<'a> {
    pub number: u32,
    pub text: &'a [u8],
}

impl<'a> Line<'a> {
    // the line that has so many before it, of its bytes with what ends it: a line feed, before which some systems put a carriage return
    pub(crate) fn new(before: usize, bytes: &'a [u8]) -> Line<'a> {
        let text = match bytes {
            [front @ .., b'\r', b'\n'] => front,
            [front @ .., b'\n' | b'\r'] => front,
            _ => bytes,
        };
        Line {
            number: u32::try_from(before).map_or(u32::MAX, |n| n.saturating_add(1)),
            text,
        }
    }

    // where its first word stands
    pub(crate) fn here(&self) -> Location {
        let start = next_word(self.text, 0).map_or(0, |word| word.start);
        Location::SrcPos(SourcePosition {
            line: self.number,
            column: start.saturating_add(1).min(LAST_COLUMN) as u32,
        })
    }
}
