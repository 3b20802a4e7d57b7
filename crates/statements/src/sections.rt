// The sections of an operation, each of which begins with its own word and may be absent.
ghost use Rattle.std.specs.Prelude.{[]};
ghost use Rattle.reading.specs.Grammar.{first, many, section};
ghost use Rattle.reading.specs.Readings.{Read};

use crate::lists::list;
use reading::item::{Item, next};
use reading::problem::ReadError;
use reading::taking::eat;
use std::alloc::Global;
use text::cursor::Words;

// A section of one word, or what its absence says.
pub fn single<T: Item>(words: &mut Words, key: &[u8], absent: T::Said) -> Result<T::Said, ReadError>
    ensures { Read (section key.now (first T.said T.EXPECTED) absent) (λ s. s) words.old words.new result }
{
    if eat(words, key) {
        next::<T>(words)
    } else {
        Ok(absent)
    }
}

// A section of a list, which is empty where it is absent.
pub fn listed<T: Item>(
    heap: Global,
    words: &mut Words,
    key: &[u8],
) -> Result<Vec<T::Said>, ReadError>
    ensures { Read (section key.now (many T.said T.EXPECTED) []) (λ v. v.items) words.old words.new result }
{
    if eat(words, key) {
        list::<T>(heap, words)
    } else {
        Ok(Vec::new(heap))
    }
}
