// What an edit is refused for. `safe` tells the edit that its places are within the row.
ghost use Rattle.std.specs.Prelude.{◌≡◌, ◌<◌, ◌≤◌, vec_len, OnOk};
ghost use Rattle.ir.specs.Limits.{limits};
ghost use Rattle.model.specs.Checks.{operand};
ghost use Rattle.model.specs.Steps.{insert_check, replace_check, remove_check};
ghost use Rattle.book.specs.Of.{model_of};
ghost use Rattle.book.specs.Rows.{HasRow};

use book::book::Book;
use ir::limits::{MAX_OPERANDS, MAX_USES};
use ir::refusal::Refusal;
use ir::value::{Operand, Value};

// the operand place that the next use would make of v: refusal 2
pub fn next_operand(book: &Book, v: Value) -> Result<Operand, Refusal>
    ensures { result ≡ operand (model_of book.now) (model_of book.now).uses v }
{
    Ok(Operand {
        value: v,
        use_uid: book.next_use,
        ty: book.value_type(v)?,
    })
}

// the operand place to be put in at k: refusals 1, 2, 10, 13, 15
pub fn check_insert(book: &Book, op: usize, k: usize, v: Value) -> Result<Operand, Refusal>
    ensures value { result ≡ insert_check limits (model_of book.now) op k v }
    ensures safe { OnOk result (HasRow book.now.ops.rows op (λ o. (k ≤ vec_len o.operands) × (vec_len o.operands < limits.operands)) × (book.now.next_use < limits.uses)) }
{
    let n = book.op(op)?.operands.len();
    let x = next_operand(book, v)?;
    if k > n {
        return Err(Refusal::OutOfRange);
    }
    if n >= MAX_OPERANDS {
        return Err(Refusal::OperandsFull);
    }
    if book.next_use >= MAX_USES {
        return Err(Refusal::UsesSpent);
    }
    Ok(x)
}

// the operand place to take the place of the operand k: refusals 1, 2, 10, 15. Apart from the check above, since 13 comes there
// between 10 and 15, and k may be the number of operands: the two have no tail in common
pub fn check_replace(book: &Book, op: usize, k: usize, v: Value) -> Result<Operand, Refusal>
    ensures value { result ≡ replace_check limits (model_of book.now) op k v }
    ensures safe { OnOk result (HasRow book.now.ops.rows op (λ o. k < vec_len o.operands) × (book.now.next_use < limits.uses)) }
{
    let n = book.op(op)?.operands.len();
    let x = next_operand(book, v)?;
    if k >= n {
        return Err(Refusal::OutOfRange);
    }
    if book.next_use >= MAX_USES {
        return Err(Refusal::UsesSpent);
    }
    Ok(x)
}

// the operand place that is to go: refusals 1, 10
pub fn check_remove(book: &Book, op: usize, k: usize) -> Result<Operand, Refusal>
    ensures value { result ≡ remove_check (model_of book.now) op k }
    ensures safe { OnOk result (HasRow book.now.ops.rows op (λ o. k < vec_len o.operands)) }
{
    let o = book.op(op)?;
    o.operands.get(k).copied().ok_or(Refusal::OutOfRange)
}
