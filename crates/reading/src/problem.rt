// Why a line is not a statement: the word that is wrong, and what should stand in its place.
ghost use Rattle.std.specs.Prelude.{◌≡◌, ◌+◌, ◌-◌, ◌^◌, ◌≤◌, min, length, Some};
ghost use Rattle.text.specs.Reading.{part};
ghost use Rattle.reading.specs.declared.problem.ReadError.TheVariants.{Memory};
ghost use Rattle.reading.specs.Phrases.{phrase_of};

use std::alloc::AllocFailed;
use std::fmt;
use text::cursor::Word;
use text::words::Span;

// What should stand in the place of a word.
#[derive(Clone, Copy, PartialEq, Eq)]
pub enum Expected {
    Statement,
    Name,
    TypeId,
    TypeHandle,
    Kind,
    Location,
    Value,
    Count,
    Section,
    In,
    Target,
    EndOfLine,
}

impl Expected {
    pub fn phrase(self) -> &'static str
        ensures { result.now ≡ phrase_of self }
    {
        match self {
            Expected::Statement => "a statement: types, block, op or place",
            Expected::Name => "a name: at most 32 letters, digits or _, and no digit first",
            Expected::TypeId => "a type id from 0 to 65535",
            Expected::TypeHandle => "a type handle",
            Expected::Kind =>
                "a kind: plain, yield, br, cond_br, if, loop, switch or a number from 0 to 255",
            Expected::Location => "a location: LINE:COLUMN or -",
            Expected::Value => "a value: NAME.K",
            Expected::Count => "a number of regions",
            Expected::Section =>
                "a later section (at, results, operands, successors, regions) or the end of the line",
            Expected::In => "in",
            Expected::Target => "a block: NAME, or a region: NAME.K",
            Expected::EndOfLine => "the end of the line",
        }
    }
}

impl fmt::Display for Expected {
    ghost output = { λ expected. Some (phrase_of expected) };

    fn fmt<W: fmt::Write>(&self, f: &mut fmt::Formatter<W>) -> fmt::Result {
        f.write_str(self.phrase())
    }
}

// The word that is wrong, which is empty at the end of the line, and what should stand there.
#[derive(Clone, Copy, PartialEq, Eq)]
pub struct Problem {
    pub found: Span,
    pub expected: Expected,
}

impl Problem {
    // The column where the word stands, counted in bytes from 1.
    pub fn column(self) -> usize
        ensures { result ≡ min (self.found.start + 1) (2 ^ 64 - 1) }
    {
        self.found.start.saturating_add(1)
    }

    // The bytes of the word, as they stand in the line.
    pub fn text(self, line: &[u8]) -> &[u8]
        ensures { self.found.start ≤ self.found.end → self.found.end ≤ length line.now → result.now ≡ part line.now self.found }
    {
        line.get(self.found.start..self.found.end).unwrap_or(&[])
    }
}

// Why no statement was read.
#[derive(Clone, Copy, PartialEq, Eq)]
pub enum ReadError {
    Malformed(Problem),
    Memory,
}

// So that `list.push(x)?` goes on to a `ReadError`. The value is let go.
impl<T: Drop> From<AllocFailed<T>> for ReadError {
    ghost from_gives = { λ _ e. e ≡ Memory };

    fn from(_refused: AllocFailed<T>) -> ReadError {
        ReadError::Memory
    }
}

// The word is wrong.
pub fn blame(word: Word, expected: Expected) -> ReadError
    ensures { result ≡ ReadError.Malformed (record { found = word.entry.span; expected = expected }) }
{
    ReadError::Malformed(Problem {
        found: word.span,
        expected,
    })
}
