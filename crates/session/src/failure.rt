// The line of a course file that is wrong, and what of it is shown.
ghost use Rattle.std.specs.Prelude.{◌≡◌};
ghost use Rattle.session.specs.declared.failure.Wrong.TheVariants.{Trouble};
ghost use Rattle.session.specs.Wrongs.{read_wrong};

use crate::trouble::Trouble;
use reading::problem::{Problem, ReadError};
use std::fmt;
use std::fmt::Write;

// What is wrong with a line: its words, or what they ask for.
#[derive(Clone, Copy)]
pub enum Wrong {
    Malformed(Problem),
    Trouble(Trouble),
}

impl From<ReadError> for Wrong {
    ghost from_gives = { λ e r. r ≡ read_wrong e };

    fn from(e: ReadError) -> Wrong {
        match e {
            ReadError::Malformed(problem) => Wrong::Malformed(problem),
            ReadError::Memory => Wrong::Trouble(Trouble::Memory),
        }
    }
}

impl From<Trouble> for Wrong {
    ghost from_gives = { λ e r. r ≡ Trouble e };

    fn from(e: Trouble) -> Wrong {
        Wrong::Trouble(e)
    }
}

// The first line that is wrong, counted from 1, and the place in the text where it begins. It is kept apart from the text.
#[derive(Clone, Copy)]
pub struct Failure {
    pub line: u32,
    pub start: usize,
    pub wrong: Wrong,
}

// A failure in readable form, with the text that it was found in.
#[derive(Clone, Copy)]
pub struct FailureShown<'a> {
    pub failure: Failure,
    pub text: &'a [u8],
}

impl<'a> fmt::Display for FailureShown<'a> {
    fn fmt<W: fmt::Write>(&self, f: &mut fmt::Formatter<W>) -> fmt::Result {
        let Failure { line, start, wrong } = self.failure;
        match wrong {
            Wrong::Malformed(problem) => {
                let column = problem.column();
                let found = Found(problem.text(self.text.get(start..).unwrap_or(&[])));
                let expected = problem.expected;
                write!(
                    f,
                    "line {line}, column {column}: found {found}, expected {expected}"
                )
            }
            Wrong::Trouble(trouble) => write!(f, "line {line}: {trouble}"),
        }
    }
}

// The word that is wrong, as far as it can be shown, or that the line ended.
#[derive(Clone, Copy)]
struct Found<'a>(&'a [u8]);

impl<'a> fmt::Display for Found<'a> {
    fn fmt<W: fmt::Write>(&self, f: &mut fmt::Formatter<W>) -> fmt::Result {
        if self.0.is_empty() {
            return f.write_str("the end of the line");
        }
        f.write_char('`')?;
        for b in self.0.iter().take(40) {
            f.write_char(if b.is_ascii_graphic() {
                *b as char
            } else {
                '?'
            })?;
        }
        f.write_char('`')
    }
}
