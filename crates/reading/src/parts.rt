// The parts of a statement. A part with a type of its own is read as itself; `At`, `Regions` and `In` only name what is read.
ghost use Rattle.text.specs.Indices.{indexed_of};
ghost use Rattle.text.specs.Kinds.{kind_of};
ghost use Rattle.text.specs.Names.{name_of};
ghost use Rattle.reading.specs.Items.{at_of, count_of, in_of};
ghost use Rattle.reading.specs.Targets.{target_of};
ghost use Rattle.reading.specs.declared.problem.Expected.TheVariants as wanted;

use crate::item::Item;
use crate::problem::Expected;
use crate::target::Target;
use ir::location::Location;
use text::indexed::Indexed;
use text::kinds::KindWord;
use text::locations::location;
use text::names::Name;
use text::numbers::number;

// Four impls that differ only in type: each names its own words of the grammar, and no macro of the repository may write an impl.
impl Item for Name {
    type Said = Name;

    const EXPECTED: Expected = Expected::Name;

    ghost EXPECTED = { wanted.Name };

    ghost said = { name_of };

    fn read(word: &[u8]) -> Option<Name> {
        Name::new(word)
    }
}

impl Item for KindWord {
    type Said = KindWord;

    const EXPECTED: Expected = Expected::Kind;

    ghost EXPECTED = { wanted.Kind };

    ghost said = { kind_of };

    fn read(word: &[u8]) -> Option<KindWord> {
        KindWord::new(word)
    }
}

// a value: a result of an operation or an argument of a block
impl Item for Indexed {
    type Said = Indexed;

    const EXPECTED: Expected = Expected::Value;

    ghost EXPECTED = { wanted.Value };

    ghost said = { indexed_of };

    fn read(word: &[u8]) -> Option<Indexed> {
        Indexed::new(word)
    }
}

impl Item for Target {
    type Said = Target;

    const EXPECTED: Expected = Expected::Target;

    ghost EXPECTED = { wanted.Target };

    ghost said = { target_of };

    fn read(word: &[u8]) -> Option<Target> {
        Target::new(word)
    }
}

// Where an operation was written: a location that is said.
pub struct At;

impl Item for At {
    type Said = Option<Location>;

    const EXPECTED: Expected = Expected::Location;

    ghost EXPECTED = { wanted.Location };

    ghost said = { at_of };

    fn read(word: &[u8]) -> Option<Option<Location>> {
        location(word).map(Some)
    }
}

// How many regions an operation has.
pub struct Regions;

impl Item for Regions {
    type Said = usize;

    const EXPECTED: Expected = Expected::Count;

    ghost EXPECTED = { wanted.Count };

    ghost said = { count_of };

    fn read(word: &[u8]) -> Option<usize> {
        number(word, usize::MAX)
    }
}

// The word `in`.
pub struct In;

impl Item for In {
    type Said = ();

    const EXPECTED: Expected = Expected::In;

    ghost EXPECTED = { wanted.In };

    ghost said = { in_of };

    fn read(word: &[u8]) -> Option<()> {
        (word == b"in".as_slice()).then_some(())
    }
}
