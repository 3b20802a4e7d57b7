// What the row of a block holds, as operation.rt reads that of an operation.
ghost use Rattle.std.specs.Prelude.{◌≡◌};
ghost use Rattle.book.specs.Of.{model_of};
ghost use Rattle.model.specs.Checks.{block_row};
ghost use Rattle.reads.specs.Rows.{block_num_arguments, argument_place, block_argument, block_num_operations, block_operation};
ghost use Rattle.reads.specs.Parents.{Found, Names, block_parent_region, block_parent_op, RegionLists, OpHoldsBlock};

use crate::places::read_place;
use crate::region;
use crate::standing::standing;
use book::book::Book;
use ir::refusal::Refusal;
use ir::value::{DefiningEntity, Definition, Value};

pub fn get_num_arguments(book: &Book, block: usize) -> Result<usize, Refusal>
    ensures { result ≡ block_num_arguments (model_of book.now) block }
{
    Ok(book.block(block)?.args.len())
}

// the i-th argument, as the row holds it
fn argument(book: &Book, block: usize, i: usize) -> Result<Definition, Refusal>
    ensures { result ≡ argument_place (model_of book.now) block i }
{
    read_place(&book.block(block)?.args, i)
}

// the i-th argument
pub fn get_argument(book: &Book, block: usize, i: usize) -> Result<Value, Refusal>
    ensures { result ≡ block_argument (model_of book.now) block i }
{
    let d = argument(book, block, i)?;
    Ok(Value {
        val_uid: d.val_uid,
        defining_entity: DefiningEntity::Block(block),
    })
}

pub fn num_operations(book: &Book, block: usize) -> Result<usize, Refusal>
    ensures { result ≡ block_num_operations (model_of book.now) block }
{
    Ok(book.block(block)?.ops.len())
}

// the i-th operation
pub fn get_operation(book: &Book, block: usize, i: usize) -> Result<usize, Refusal>
    ensures { result ≡ block_operation (model_of book.now) block i }
{
    read_place(&book.block(block)?.ops, i)
}

// the region in which the block stands
pub fn get_parent_region(book: &Book, block: usize) -> Result<Option<usize>, Refusal>
    ensures value { result ≡ block_parent_region (model_of book.now) block }
    ensures listed { Found (block_row (model_of book.now) block) (Names (λ p. RegionLists (model_of book.now) p block)) result }
{
    standing(book);
    Ok(book.block(block)?.parent)
}

// the operation in whose region the block stands
pub fn get_parent_op(book: &Book, block: usize) -> Result<Option<usize>, Refusal>
    ensures value { result ≡ block_parent_op (model_of book.now) block }
    ensures listed { Found (block_row (model_of book.now) block) (Names (λ p. OpHoldsBlock (model_of book.now) p block)) result }
{
    standing(book);
    get_parent_region(book, block)?
        .map(|r| region::get_parent_op(book, r))
        .transpose()
}
