// Words: the runs of bytes between blanks. `#` begins a comment, which goes to the end of the line.
ghost use Rattle.std.specs.Prelude.{◌≡◌, MatchOption};
ghost use Rattle.text.specs.Words.{blank, in_word, NextWord, NoWord};

use crate::scan::run;

// The bytes of a line from `start` up to `end`. A struct of its own, since the library's `Range` cannot be copied.
#[derive(Clone, Copy, PartialEq, Eq)]
pub struct Span {
    pub start: usize,
    pub end: usize,
}

pub fn is_blank(b: u8) -> bool
    ensures { result ≡ blank b }
{
    b == b' ' || b == b'\t'
}

// Whether a byte can stand in a word.
pub fn is_in_word(b: u8) -> bool
    ensures { result ≡ in_word b }
{
    !is_blank(b) && b != b'#'
}

// The first word of the line from `from` on.
pub fn next_word(line: &[u8], from: usize) -> Option<Span>
    ensures { MatchOption result (NoWord line.now from) (NextWord line.now from) }
{
    let rest = line.get(from..)?;
    let start = from + run(rest, is_blank);
    let end = start + run(&line[start..], is_in_word);
    (start < end).then_some(Span { start, end })
}
