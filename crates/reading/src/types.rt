// Types as a statement writes them: both are numbers, and these two only name which is read.
ghost use Rattle.reading.specs.Items.{handle_of, id_of};
ghost use Rattle.reading.specs.declared.problem.Expected.TheVariants as wanted;

use crate::item::Item;
use crate::problem::Expected;
use text::numbers::number;

// A type, by its handle.
pub struct TypeHandle;

impl Item for TypeHandle {
    type Said = usize;

    const EXPECTED: Expected = Expected::TypeHandle;

    ghost EXPECTED = { wanted.TypeHandle };

    ghost said = { handle_of };

    fn read(word: &[u8]) -> Option<usize> {
        number(word, usize::MAX)
    }
}

// The id of a type.
pub struct TypeId;

impl Item for TypeId {
    type Said = u16;

    const EXPECTED: Expected = Expected::TypeId;

    ghost EXPECTED = { wanted.TypeId };

    ghost said = { id_of };

    fn read(word: &[u8]) -> Option<u16> {
        Some(number(word, 65535)? as u16)
    }
}
