// A name with an index, as `start.0`: a result of an operation, an argument of a block or a region of an operation.
ghost use Rattle.std.specs.Prelude.{◌≡◌, Some};
ghost use Rattle.text.specs.Indices.{indexed_of, shown};

use crate::marks::cut;
use crate::names::Name;
use crate::numbers::number;
use std::fmt;

#[derive(Clone, Copy, PartialEq, Eq)]
pub struct Indexed {
    pub name: Name,
    pub index: usize,
}

impl Indexed {
    pub fn new(word: &[u8]) -> Option<Indexed>
        ensures { result ≡ indexed_of word.now }
    {
        let (front, back) = cut(b'.', word);
        Some(Indexed {
            name: Name::new(front)?,
            index: number(back, usize::MAX)?,
        })
    }
}

impl fmt::Display for Indexed {
    ghost output = { λ indexed. Some (shown indexed) };

    fn fmt<W: fmt::Write>(&self, f: &mut fmt::Formatter<W>) -> fmt::Result {
        write!(f, "{}.{}", self.name, self.index)
    }
}
