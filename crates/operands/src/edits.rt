// The edits themselves. Inserting and replacing answer the use that they made, pushing its index too; removing and popping
// answer the value that went.
ghost use Rattle.std.specs.Prelude.{◌≡◌};
ghost use Rattle.ir.specs.Limits.{limits};
ghost use Rattle.model.specs.Steps.{insert_step, push_step, replace_step, remove_step, pop_step};
ghost use Rattle.model.specs.Lasts.{Lasts};
ghost use Rattle.book.specs.Of.{model_of};

use crate::checks::{check_insert, check_remove, check_replace};
use book::book::Book;
use ir::refusal::Refusal;
use ir::value::{Operand, Pushed, Use, Value};

// v put in at k, before the operand that is there now; k may be the number of operands
pub fn insert_operand(
    book: &mut Book,
    op: usize,
    k: usize,
    v: Value,
) -> Result<Use<Operand>, Refusal>
    ensures step { insert_step limits (model_of book.old) op k v ≡ (result, model_of book.new) }
    ensures lasts { Lasts (model_of book.old) (model_of book.new) }
{
    let x = check_insert(book, op, k, v)?;
    book.ops.rows[op].insert(k, x);
    book.next_use += 1;
    Ok(Use::new(op, x.use_uid))
}

// v in the place of the operand k, as a new use. Apart from the insertion: a function for both takes the write as a closure, and
// its clauses (what that does to the row, and that the book stays sound) are longer than the lines that it would share
pub fn replace_operand(
    book: &mut Book,
    op: usize,
    k: usize,
    v: Value,
) -> Result<Use<Operand>, Refusal>
    ensures step { replace_step limits (model_of book.old) op k v ≡ (result, model_of book.new) }
    ensures lasts { Lasts (model_of book.old) (model_of book.new) }
{
    let x = check_replace(book, op, k, v)?;
    book.ops.rows[op].replace(k, x);
    book.next_use += 1;
    Ok(Use::new(op, x.use_uid))
}

// the operand k taken out
pub fn remove_operand(book: &mut Book, op: usize, k: usize) -> Result<Value, Refusal>
    ensures step { remove_step (model_of book.old) op k ≡ (result, model_of book.new) }
    ensures lasts { Lasts (model_of book.old) (model_of book.new) }
{
    let x = check_remove(book, op, k)?;
    book.ops.rows[op].remove(k);
    Ok(x.value)
}

// v put last
pub fn push_operand(book: &mut Book, op: usize, v: Value) -> Result<Pushed, Refusal>
    ensures step { push_step limits (model_of book.old) op v ≡ (result, model_of book.new) }
    ensures lasts { Lasts (model_of book.old) (model_of book.new) }
{
    let index = book.op(op)?.operands.len();
    let made = insert_operand(book, op, index, v)?;
    Ok(Pushed { index, made })
}

// the last operand taken out
pub fn pop_operand(book: &mut Book, op: usize) -> Result<Value, Refusal>
    ensures step { pop_step (model_of book.old) op ≡ (result, model_of book.new) }
    ensures lasts { Lasts (model_of book.old) (model_of book.new) }
{
    let n = book.op(op)?.operands.len();
    let last = n.checked_sub(1).ok_or(Refusal::NothingToPop)?;
    remove_operand(book, op, last)
}
