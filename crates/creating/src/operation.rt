ghost use Rattle.std.specs.Prelude.{◌≡◌, None};
ghost use Rattle.ir.specs.Limits.{limits};
ghost use Rattle.model.specs.Steps.{create_step};
ghost use Rattle.model.specs.Lasts.{Lasts};
ghost use Rattle.book.specs.Of.{model_of};

use crate::checks::check_operation;
use crate::places::fill_places;
use crate::regions::add_regions;
use book::book::Book;
use ir::limits::MAX_OPERANDS;
use ir::refusal::Refusal;
use ir::value::{DefiningEntity, Operand, Value};
use rows::operation::new_row::{FirstNumbers, NewOperation};

const NO_OPERAND: Operand = Operand {
    value: Value {
        val_uid: 0,
        defining_entity: DefiningEntity::Op(0),
    },
    use_uid: 0,
    ty: 0,
};

// a new operation, placed nowhere, with its regions; answers its row
pub fn new_operation(book: &mut Book, new: NewOperation<'_, Value>) -> Result<usize, Refusal>
    ensures step { create_step limits (model_of book.old) new.entry.kind new.entry.location None new.entry.result_types.now new.entry.operands.now new.entry.successors.now new.entry.num_regions ≡ (result, model_of book.new) }
    ensures lasts { Lasts (model_of book.old) (model_of book.new) }
{
    check_operation(book, new)?;
    // on the stack, since nothing may be allocated once a book is made
    let mut scratch = [NO_OPERAND; MAX_OPERANDS];
    let places = &mut scratch[0..new.operands.len()];
    fill_places(book, new.operands, places);
    let first = FirstNumbers {
        value: book.next_value,
        block_use: book.next_use + new.operands.len() as u32,
        region: book.num_regions(),
    };
    let at = book.ops.add();
    book.ops.rows[at].fill(new.with_operands(places), first);
    add_regions(&mut book.regions, at, new.num_regions);
    book.next_value += new.result_types.len() as u32;
    book.next_use += (new.operands.len() + new.successors.len()) as u32;
    Ok(at)
}
