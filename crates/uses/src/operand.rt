// Operand places use values.
ghost use Rattle.std.specs.Prelude.{◌≡◌};
ghost use Rattle.std.proofs.Common.{rules};
ghost use Rattle.uses.specs.Places.{operand_places};

use crate::error::UseError;
use crate::place::UsePlace;
use book::book::Book;
use ir::refusal::Refusal;
use ir::value::{Operand, Value};
use rows::operation::Operation;

impl UsePlace for Operand {
    type Held = Value;

    ghost kind = { operand_places };

    ghost decides = { Prim.search rules };

    ghost few = { Prim.search rules };

    ghost once = { λ m i j k l o p x y s. s.use_once i j k l o p x y };

    fn of(o: &Operation) -> &[Operand] {
        &o.operands
    }

    fn number(&self) -> u32 {
        self.use_uid
    }

    fn used(&self) -> Value {
        self.value
    }

    fn holds(&self, x: Value) -> bool {
        self.used() == x
    }

    fn check(book: &Book, x: Value) -> Result<(), Refusal> {
        book.value_type(x)?;
        Ok(())
    }

    fn lost() -> UseError {
        UseError::OperandNotInUserOp
    }
}
