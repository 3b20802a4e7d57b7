// Lists of words, each up to the next section or the end of the line.
ghost use Rattle.reading.specs.Grammar.{many};
ghost use Rattle.reading.specs.Readings.{Read};

use reading::item::{Item, parse};
use reading::problem::ReadError;
use reading::taking::next_item;
use std::alloc::Global;
use text::cursor::Words;

pub fn list<T: Item>(heap: Global, words: &mut Words) -> Result<Vec<T::Said>, ReadError>
    ensures { Read (many T.said T.EXPECTED) (λ v. v.items) words.old words.new result }
{
    let mut list = Vec::new(heap);
    while let Some(word) = next_item(words) {
        list.push(parse::<T>(word)?)?;
    }
    Ok(list)
}
