// What a new operation is refused for, group by group in rising order of the numbers.
ghost use Rattle.std.specs.Prelude.{◌≡◌, ◌+◌, ◌<◌, ◌≤◌, length, vec_len, OnOk};
ghost use Rattle.ir.specs.Limits.{limits};
ghost use Rattle.model.specs.Checks.{map_ok, operands_of};
ghost use Rattle.model.specs.Steps.{rows_check, few_check, room_check, create_check};
ghost use Rattle.rows.specs.NewRow.{IsFew};
ghost use Rattle.book.specs.Of.{model_of};

use book::book::Book;
use ir::limits::{
    MAX_OP_REGIONS, MAX_OPERANDS, MAX_OPERATIONS, MAX_REGIONS, MAX_RESULTS, MAX_SUCCESSORS,
    MAX_USES,
};
use ir::refusal::Refusal;
use ir::value::Value;
use rows::operation::new_row::NewOperation;
use rows::scan::all_below;

// types and successor blocks that are there: 1
fn check_rows(book: &Book, new: NewOperation<'_, Value>) -> Result<(), Refusal>
    ensures { result ≡ rows_check (model_of book.now) new.entry.result_types.now new.entry.successors.now }
{
    if !all_below(new.result_types, book.num_types()) {
        return Err(Refusal::NoRow);
    }
    if !all_below(new.successors, book.num_blocks()) {
        return Err(Refusal::NoRow);
    }
    Ok(())
}

// every value found, or the first that is not: 2
fn check_values(book: &Book, values: &[Value]) -> Result<(), Refusal>
    ensures { result ≡ map_ok (λ _. tt) (operands_of (model_of book.now) (model_of book.now).uses values.now) }
{
    for v in values {
        book.value_type(*v)?;
    }
    Ok(())
}

// no more of each than one operation may have: 3
fn check_few(new: NewOperation<'_, Value>) -> Result<(), Refusal>
    ensures value { result ≡ few_check limits (length new.entry.result_types.now) (length new.entry.operands.now) (length new.entry.successors.now) new.entry.num_regions }
    ensures few { OnOk result (IsFew new.entry) }
{
    if new.result_types.len() <= MAX_RESULTS
        && new.operands.len() <= MAX_OPERANDS
        && new.successors.len() <= MAX_SUCCESSORS
        && new.num_regions <= MAX_OP_REGIONS
    {
        Ok(())
    } else {
        Err(Refusal::OverCapacity)
    }
}

// rows left for the operation and its n regions, 7, and uses, 15
fn check_room(book: &Book, uses: usize, n: usize) -> Result<(), Refusal>
    requires { (uses ≤ limits.operands + limits.successors) × (n ≤ limits.op_regions) }
    ensures value { result ≡ room_check limits (model_of book.now) uses n }
    ensures room { OnOk result ((vec_len book.now.ops.rows < limits.operations) × ((vec_len book.now.regions.rows + n ≤ limits.regions) × (book.now.next_use + uses ≤ limits.uses))) }
{
    if book.num_ops() >= MAX_OPERATIONS {
        return Err(Refusal::NoRowsLeft);
    }
    if book.num_regions() + n > MAX_REGIONS {
        return Err(Refusal::NoRowsLeft);
    }
    if book.next_use as usize + uses > MAX_USES as usize {
        return Err(Refusal::UsesSpent);
    }
    Ok(())
}

// all of them: 1, 2, 3, 7, 15
pub fn check_operation(book: &Book, new: NewOperation<'_, Value>) -> Result<(), Refusal>
    ensures value { result ≡ map_ok (λ _. tt) (create_check limits (model_of book.now) new.entry.result_types.now new.entry.operands.now new.entry.successors.now new.entry.num_regions) }
    ensures few { OnOk result (IsFew new.entry) }
    ensures room { OnOk result ((vec_len book.now.ops.rows < limits.operations) × ((vec_len book.now.regions.rows + new.entry.num_regions ≤ limits.regions) × (book.now.next_use + (length new.entry.operands.now + length new.entry.successors.now) ≤ limits.uses))) }
{
    check_rows(book, new)?;
    check_values(book, new.operands)?;
    check_few(new)?;
    let uses = new.operands.len() + new.successors.len();
    check_room(book, uses, new.num_regions)
}
