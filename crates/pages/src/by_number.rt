// Rows by number. What is not in the book shows as a row that holds nothing, as on a page.
// Each reader is one expression, so a generic one with a marker for each list would be longer.
ghost use Rattle.std.specs.Prelude.{◌≡◌};
ghost use Rattle.book.specs.Of.{model_of};
ghost use Rattle.pages.specs.Page.{op_at, block_at, region_at};

use book::book::Book;
use ir::value::{Definition, Operand};

// a byte, as families are open
pub fn op_kind(book: &Book, i: usize) -> u8
    ensures { result ≡ (op_at (model_of book.now) i).body.kind }
{
    book.op(i).map_or(0, |o| o.kind)
}

pub fn op_operands(book: &Book, i: usize) -> &[Operand]
    ensures { result.now ≡ (op_at (model_of book.now) i).body.operands }
{
    book.op(i).map_or(&[], |o| o.operands.as_slice())
}

pub fn block_args(book: &Book, b: usize) -> &[Definition]
    ensures { result.now ≡ (block_at (model_of book.now) b).args }
{
    book.block(b).map_or(&[], |x| x.args.as_slice())
}

pub fn block_ops(book: &Book, b: usize) -> &[usize]
    ensures { result.now ≡ (block_at (model_of book.now) b).ops }
{
    book.block(b).map_or(&[], |x| x.ops.as_slice())
}

pub fn region_blocks(book: &Book, r: usize) -> &[usize]
    ensures { result.now ≡ (region_at (model_of book.now) r).blocks }
{
    book.region(r).map_or(&[], |x| x.blocks.as_slice())
}
