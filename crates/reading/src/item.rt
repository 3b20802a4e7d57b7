// What one word of a statement says.
ghost use Rattle.std.specs.Prelude.{◌≡◌, List, ℕ, Option};
ghost use Rattle.reading.specs.Grammar.{first};
ghost use Rattle.reading.specs.Readings.{Read, Says};
ghost use Rattle.reading.specs.declared.problem.Expected.{Expected};

use crate::problem::{Expected, ReadError, blame};
use crate::taking::need;
use text::cursor::{Word, Words};

// What a word can say, and what should stand in its place where it does not say that.
pub trait Item {
    type Said: Drop;

    const EXPECTED: Expected;

    ghost EXPECTED: { Expected };

    ghost said: { List ℕ → Option Self.Said };

    fn read(word: &[u8]) -> Option<Self::Said>
        ensures { result ≡ said word.now };
}

// What the word says, or else it is blamed.
pub fn parse<T: Item>(word: Word) -> Result<T::Said, ReadError>
    ensures { Says T.said (λ s. s) T.EXPECTED word.entry result }
{
    T::read(word.text).ok_or(blame(word, T::EXPECTED))
}

// What the next word says, which has to be there.
pub fn next<T: Item>(words: &mut Words) -> Result<T::Said, ReadError>
    ensures { Read (first T.said T.EXPECTED) (λ s. s) words.old words.new result }
{
    parse::<T>(need(words, T::EXPECTED)?)
}
