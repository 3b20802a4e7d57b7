// The words of a line, as the statements take them.
ghost use Rattle.std.specs.Prelude.{◌≡◌, true, false, IfOk, IfNone, IfSome, Some, MatchOption};
ghost use Rattle.std.specs.Fn.{FnOnceReturnsAt};
ghost use Rattle.text.specs.Reading.{line_of, left, TakesWord};
ghost use Rattle.reading.specs.Grammar.{first, none, eaten, section_word};
ghost use Rattle.reading.specs.Readings.{Read, NoItem, MatchFirst, TakesItem};

use crate::problem::{Expected, Problem, ReadError, blame};
use text::cursor::{Word, Words};

// The next word, which has to be there.
pub fn need<'a>(words: &mut Words<'a>, expected: Expected) -> Result<Word<'a>, ReadError>
    ensures read { Read (first (λ w. Some w) expected) (λ (w : Word). w.text.now) words.old words.new result }
    ensures takes { IfOk result (TakesWord words.old words.new) }
{
    let word = words.next();
    word.ok_or(ReadError::Malformed(Problem {
        found: words.end(),
        expected,
    }))
}

// No word is left.
pub fn finish(words: &mut Words, expected: Expected) -> Result<(), ReadError>
    ensures { Read (none expected) (λ u. u) words.old words.new result }
{
    words
        .next()
        .map_or(Ok(()), |word| Err(blame(word, expected)))
}

// The next word where it passes the test, which is then no longer left.
fn next_if<'a, F: FnOnce(&[u8]) -> bool>(words: &mut Words<'a>, passes: F) -> Option<Word<'a>>
    requires { F.IsAlwaysCallable passes }
    ensures line { line_of words.new ≡ line_of words.old }
    ensures some { IfSome result (λ word. TakesWord words.old words.new word × FnOnceReturnsAt F.FnOnce passes word.text.now true) }
    ensures none { IfNone result (left words.new ≡ left words.old) }
    ensures fails { IfNone result (MatchFirst (left words.old) (λ w. FnOnceReturnsAt F.FnOnce passes w false)) }
{
    let mut ahead = *words;
    let word = ahead.next()?;
    if passes(word.text) {
        *words = ahead;
        Some(word)
    } else {
        None
    }
}

// Whether the next word is `key`, which is then no longer left.
pub fn eat(words: &mut Words, key: &[u8]) -> bool
    ensures line { line_of words.new ≡ line_of words.old }
    ensures left { (result, left words.new) ≡ eaten key.now (left words.old) }
{
    next_if(words, |word| word == key).is_some()
}

// The words that begin a section of an operation.
const SECTIONS: [&'static [u8]; 5] = [b"at", b"results", b"operands", b"successors", b"regions"];

pub fn begins_section(word: &[u8]) -> bool
    ensures { result ≡ section_word word.now }
{
    SECTIONS.iter().any(|section| word == *section)
}

// The next word, unless it begins a section.
pub fn next_item<'a>(words: &mut Words<'a>) -> Option<Word<'a>>
    ensures line { line_of words.new ≡ line_of words.old }
    ensures takes { MatchOption result (NoItem (left words.old) × (left words.new ≡ left words.old)) (TakesItem words.old words.new) }
{
    next_if(words, |word| !begins_section(word))
}
