// How the words of a line are read, one after the other.
ghost use Rattle.std.specs.Prelude.{◌≡◌, [], length};
ghost use Rattle.std.specs.Iterator.{item_count};
ghost use Rattle.text.specs.Reading.{line_of, left, Stands, Next};
ghost use Rattle.text.specs.Words.{words};

use crate::cursor::{Word, Words};
use crate::words::{Span, next_word};

impl<'a> Words<'a> {
    pub fn new(line: &'a [u8]) -> Words<'a>
        ensures line { line_of result ≡ line.now }
        ensures left { left result ≡ words line.now }
    {
        Words { line, at: 0 }
    }

    // Where the words end, once none is left.
    pub fn end(&self) -> Span
        ensures { left self.now ≡ [] → Stands (line_of self.now) [] result }
    {
        Span {
            start: self.at,
            end: self.at,
        }
    }
}

// Each word in turn, which is then no longer left.
impl<'a> Iterator for Words<'a> {
    type Item = Word<'a>;

    ghost next_gives = { Next };

    ghost remaining = { item_count left };

    fn next(&mut self) -> Option<Word<'a>> {
        let span = next_word(self.line, self.at)?;
        self.at = span.end;
        Some(Word {
            text: &self.line[span.start..span.end],
            span,
        })
    }
}
