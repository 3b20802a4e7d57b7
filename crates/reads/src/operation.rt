// What the row of an operation holds. Each reader is one expression, with pliron's name: one generic reader would want a marker type
// for each of the lists, and be no shorter.
ghost use Rattle.std.specs.Prelude.{◌≡◌};
ghost use Rattle.book.specs.Of.{model_of};
ghost use Rattle.model.specs.Checks.{op_row};
ghost use Rattle.reads.specs.Rows.{op_kind, op_loc, op_num_operands, operand_place, op_operand, op_operand_use, op_num_results, result_place, op_result, op_num_successors, successor_place, op_successor, op_successor_use, op_num_regions, op_region};
ghost use Rattle.reads.specs.Parents.{Found, Names, op_parent_block, op_parent_region, op_parent_op, BlockLists, RegionHolds, OpHolds};

use crate::basic_block;
use crate::places::read_place;
use crate::standing::standing;
use book::book::Book;
use ir::location::Location;
use ir::refusal::Refusal;
use ir::value::{DefiningEntity, Definition, Operand, Successor, Use, Value};

// a byte and not `Kind`: families are open, and any byte is a kind of some family
pub fn get_kind(book: &Book, op: usize) -> Result<u8, Refusal>
    ensures { result ≡ op_kind (model_of book.now) op }
{
    Ok(book.op(op)?.kind)
}

pub fn get_loc(book: &Book, op: usize) -> Result<Location, Refusal>
    ensures { result ≡ op_loc (model_of book.now) op }
{
    Ok(book.op(op)?.location)
}

pub fn get_num_operands(book: &Book, op: usize) -> Result<usize, Refusal>
    ensures { result ≡ op_num_operands (model_of book.now) op }
{
    Ok(book.op(op)?.operands.len())
}

// the i-th operand place
fn operand(book: &Book, op: usize, i: usize) -> Result<Operand, Refusal>
    ensures { result ≡ operand_place (model_of book.now) op i }
{
    read_place(&book.op(op)?.operands, i)
}

// the value of the i-th operand
pub fn get_operand(book: &Book, op: usize, i: usize) -> Result<Value, Refusal>
    ensures { result ≡ op_operand (model_of book.now) op i }
{
    Ok(operand(book, op, i)?.value)
}

// the use that the i-th operand is
pub fn get_operand_as_use(book: &Book, op: usize, i: usize) -> Result<Use<Operand>, Refusal>
    ensures { result ≡ op_operand_use (model_of book.now) op i }
{
    let x = operand(book, op, i)?;
    Ok(Use::new(op, x.use_uid))
}

pub fn get_num_results(book: &Book, op: usize) -> Result<usize, Refusal>
    ensures { result ≡ op_num_results (model_of book.now) op }
{
    Ok(book.op(op)?.results.len())
}

// the i-th result, as the row holds it
fn result(book: &Book, op: usize, i: usize) -> Result<Definition, Refusal>
    ensures { result ≡ result_place (model_of book.now) op i }
{
    read_place(&book.op(op)?.results, i)
}

// the i-th result
pub fn get_result(book: &Book, op: usize, i: usize) -> Result<Value, Refusal>
    ensures { result ≡ op_result (model_of book.now) op i }
{
    let d = result(book, op, i)?;
    Ok(Value {
        val_uid: d.val_uid,
        defining_entity: DefiningEntity::Op(op),
    })
}

pub fn get_num_successors(book: &Book, op: usize) -> Result<usize, Refusal>
    ensures { result ≡ op_num_successors (model_of book.now) op }
{
    Ok(book.op(op)?.successors.len())
}

// the i-th successor place
fn successor(book: &Book, op: usize, i: usize) -> Result<Successor, Refusal>
    ensures { result ≡ successor_place (model_of book.now) op i }
{
    read_place(&book.op(op)?.successors, i)
}

// the block that the i-th successor names
pub fn get_successor(book: &Book, op: usize, i: usize) -> Result<usize, Refusal>
    ensures { result ≡ op_successor (model_of book.now) op i }
{
    Ok(successor(book, op, i)?.block)
}

// the use that the i-th successor is
pub fn get_successor_as_use(book: &Book, op: usize, i: usize) -> Result<Use<Successor>, Refusal>
    ensures { result ≡ op_successor_use (model_of book.now) op i }
{
    let s = successor(book, op, i)?;
    Ok(Use::new(op, s.use_uid))
}

pub fn num_regions(book: &Book, op: usize) -> Result<usize, Refusal>
    ensures { result ≡ op_num_regions (model_of book.now) op }
{
    Ok(book.op(op)?.regions.len())
}

// the i-th region
pub fn get_region(book: &Book, op: usize, i: usize) -> Result<usize, Refusal>
    ensures { result ≡ op_region (model_of book.now) op i }
{
    read_place(&book.op(op)?.regions, i)
}

// the block in which the operation stands
pub fn get_parent_block(book: &Book, op: usize) -> Result<Option<usize>, Refusal>
    ensures value { result ≡ op_parent_block (model_of book.now) op }
    ensures listed { Found (op_row (model_of book.now) op) (Names (λ p. BlockLists (model_of book.now) p op)) result }
{
    standing(book);
    Ok(book.op(op)?.parent)
}

// the region in which that block stands
pub fn get_parent_region(book: &Book, op: usize) -> Result<Option<usize>, Refusal>
    ensures value { result ≡ op_parent_region (model_of book.now) op }
    ensures listed { Found (op_row (model_of book.now) op) (Names (λ p. RegionHolds (model_of book.now) p op)) result }
{
    standing(book);
    get_parent_block(book, op)?.map_or(Ok(None), |b| basic_block::get_parent_region(book, b))
}

// the operation that this region belongs to: it may be the operation itself
pub fn get_parent_op(book: &Book, op: usize) -> Result<Option<usize>, Refusal>
    ensures value { result ≡ op_parent_op (model_of book.now) op }
    ensures listed { Found (op_row (model_of book.now) op) (Names (λ p. OpHolds (model_of book.now) p op)) result }
{
    standing(book);
    get_parent_block(book, op)?.map_or(Ok(None), |b| basic_block::get_parent_op(book, b))
}
