ghost use Rattle.std.specs.Prelude.{◌≡◌, ◌<◌, ◌≤◌, length, vec_len, OnOk};
ghost use Rattle.ir.specs.Limits.{limits};
ghost use Rattle.model.specs.Steps.{block_check, block_step};
ghost use Rattle.model.specs.Lasts.{Lasts};
ghost use Rattle.book.specs.Of.{model_of};

use book::book::Book;
use ir::limits::{MAX_ARGUMENTS, MAX_BLOCKS};
use ir::refusal::Refusal;
use rows::scan::all_below;

// refusals 1, 3, 7
fn check_block(book: &Book, types: &[usize]) -> Result<(), Refusal>
    ensures value { result ≡ block_check limits (model_of book.now) types.now }
    ensures room { OnOk result ((length types.now ≤ limits.arguments) × (vec_len book.now.blocks.rows < limits.blocks)) }
{
    if !all_below(types, book.num_types()) {
        return Err(Refusal::NoRow);
    }
    if types.len() > MAX_ARGUMENTS {
        return Err(Refusal::OverCapacity);
    }
    if book.num_blocks() >= MAX_BLOCKS {
        return Err(Refusal::NoRowsLeft);
    }
    Ok(())
}

// a new block, placed nowhere; answers its row
pub fn new_block(book: &mut Book, arg_types: &[usize]) -> Result<usize, Refusal>
    ensures step { block_step limits (model_of book.old) arg_types.now ≡ (result, model_of book.new) }
    ensures lasts { Lasts (model_of book.old) (model_of book.new) }
{
    check_block(book, arg_types)?;
    let at = book.blocks.add();
    book.blocks.rows[at].fill(arg_types, book.next_value);
    book.next_value += arg_types.len() as u32;
    Ok(at)
}
