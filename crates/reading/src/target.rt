// Where something is placed: an operation in a block, or a block in a region, which has an index.
ghost use Rattle.std.specs.Prelude.{◌≡◌, Some};
ghost use Rattle.reading.specs.Targets.{shown, target_of};

use std::fmt;
use text::indexed::Indexed;
use text::names::Name;

#[derive(Clone, Copy, PartialEq, Eq)]
pub enum Target {
    Block(Name),
    Region(Indexed),
}

impl Target {
    pub fn new(word: &[u8]) -> Option<Target>
        ensures { result ≡ target_of word.now }
    {
        Indexed::new(word)
            .map(Target::Region)
            .or_else(|| Name::new(word).map(Target::Block))
    }
}

impl fmt::Display for Target {
    ghost output = { λ target. Some (shown target) };

    fn fmt<W: fmt::Write>(&self, f: &mut fmt::Formatter<W>) -> fmt::Result {
        match self {
            Target::Block(name) => name.fmt(f),
            Target::Region(region) => region.fmt(f),
        }
    }
}
