// What the row of a region holds, as operation.rt reads that of an operation.
ghost use Rattle.std.specs.Prelude.{◌≡◌, Some};
ghost use Rattle.book.specs.Of.{model_of};
ghost use Rattle.model.specs.Checks.{map_ok, region_row};
ghost use Rattle.reads.specs.Rows.{region_num_blocks, region_block, region_entry};
ghost use Rattle.reads.specs.Parents.{Found, Names, region_parent_op, OpLists};

use crate::places::{item, read_place};
use crate::standing::standing;
use book::book::Book;
use ir::refusal::Refusal;

pub fn num_blocks(book: &Book, region: usize) -> Result<usize, Refusal>
    ensures { result ≡ region_num_blocks (model_of book.now) region }
{
    Ok(book.region(region)?.blocks.len())
}

// the i-th block
pub fn get_block(book: &Book, region: usize, i: usize) -> Result<usize, Refusal>
    ensures { result ≡ region_block (model_of book.now) region i }
{
    read_place(&book.region(region)?.blocks, i)
}

// the first block, if there is one
pub fn get_entry_block(book: &Book, region: usize) -> Result<Option<usize>, Refusal>
    ensures { result ≡ region_entry (model_of book.now) region }
{
    Ok(item(&book.region(region)?.blocks, 0))
}

// the operation that the region belongs to
pub fn get_parent_op(book: &Book, region: usize) -> Result<usize, Refusal>
    ensures value { result ≡ region_parent_op (model_of book.now) region }
    ensures listed { Found (region_row (model_of book.now) region) (Names (λ p. OpLists (model_of book.now) p region)) (map_ok (λ p. Some p) result) }
{
    standing(book);
    Ok(book.region(region)?.owner)
}
