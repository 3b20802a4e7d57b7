// Successor places use blocks.
ghost use Rattle.std.specs.Prelude.{◌≡◌};
ghost use Rattle.std.proofs.Common.{rules};
ghost use Rattle.uses.specs.Places.{successor_places};

use crate::error::UseError;
use crate::place::UsePlace;
use book::book::Book;
use ir::refusal::Refusal;
use ir::value::Successor;
use rows::operation::Operation;

impl UsePlace for Successor {
    type Held = usize;

    ghost kind = { successor_places };

    ghost decides = { Prim.search rules };

    ghost few = { Prim.search rules };

    ghost once = { λ m i j k l o p x y s. s.block_use_once i j k l o p x y };

    fn of(o: &Operation) -> &[Successor] {
        &o.successors
    }

    fn number(&self) -> u32 {
        self.use_uid
    }

    fn used(&self) -> usize {
        self.block
    }

    fn holds(&self, x: usize) -> bool {
        self.used() == x
    }

    fn check(book: &Book, x: usize) -> Result<(), Refusal> {
        book.block(x)?;
        Ok(())
    }

    fn lost() -> UseError {
        UseError::SuccessorNotInUserOp
    }
}
