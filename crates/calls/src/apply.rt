// A call carried out on a book.
ghost use Rattle.std.specs.Prelude.{◌≡◌};
ghost use Rattle.ir.specs.Limits.{limits};
ghost use Rattle.model.specs.Lasts.{Lasts};
ghost use Rattle.book.specs.Of.{model_of};
ghost use Rattle.calls.specs.Calls.{call_step, new_operation};

use crate::call::{Call, NewOperation};
use book::book::Book;
use creating::basic_block::new_block;
use creating::operation::new_operation;
use ir::refusal::Refusal;
use ir::value::DefiningEntity;
use placing::placing::{place_block, place_operation};
use rows::operation::new_row::NewOperation as Wanted;

// the row that the call made, if it makes one. The answer and the book after it are the model's; a refusal leaves the book as it was
pub fn apply(book: &mut Book, call: &Call) -> Result<Option<DefiningEntity>, Refusal>
    ensures step { call_step limits (model_of book.old) call.now ≡ (result, model_of book.new) }
    ensures lasts { Lasts (model_of book.old) (model_of book.new) }
{
    match call {
        Call::NewOperation(o) => Ok(Some(DefiningEntity::Op(create(book, o)?))),
        Call::NewBlock(types) => Ok(Some(DefiningEntity::Block(new_block(book, types)?))),
        Call::PlaceOperation(op, b) => {
            place_operation(book, *op, *b)?;
            Ok(None)
        }
        Call::PlaceBlock(b, r) => {
            place_block(book, *b, *r)?;
            Ok(None)
        }
    }
}

fn create(book: &mut Book, o: &NewOperation) -> Result<usize, Refusal>
    ensures step { new_operation limits (model_of book.old) o.now ≡ (result, model_of book.new) }
    ensures lasts { Lasts (model_of book.old) (model_of book.new) }
{
    let wanted = Wanted {
        kind: o.kind,
        location: o.location,
        result_types: &o.result_types,
        operands: &o.operands,
        successors: &o.successors,
        num_regions: o.num_regions,
    };
    new_operation(book, wanted)
}
