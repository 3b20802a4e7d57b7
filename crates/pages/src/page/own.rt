// What a page has of the operation itself. `seen` is the page in the model that a view stands for.
ghost use Rattle.std.specs.Prelude.{◌≡◌, map, length};
ghost use Rattle.std.specs.List.{slice_get};
ghost use Rattle.std.specs.Option.{option_map};
ghost use Rattle.model.specs.Checks.{map_ok, op_row};
ghost use Rattle.rows.specs.Of.{op_model};
ghost use Rattle.book.specs.Of.{model_of};
ghost use Rattle.pages.specs.Page.{page, op_at, successor_page, region_page, successor_of};
ghost use Rattle.pages.specs.Seen.{seen, book_of};

use crate::by_number::block_args;
use crate::page::OpPage;
use book::book::Book;
use ir::refusal::Refusal;
use ir::value::{Definition, Operand, Successor};
use rows::operation::Operation;

impl<'a> OpPage<'a> {
    // the page of an operation: 1
    pub fn of(book: &'a Book, op: usize) -> Result<OpPage<'a>, Refusal>
        ensures { map_ok seen result ≡ map_ok (λ _. page (model_of book.now) op) (op_row (model_of book.now) op) }
    {
        book.op(op)?;
        Ok(OpPage { book, op })
    }

    fn operation(&self) -> &'a Operation
        ensures { op_model result.now ≡ op_at (book_of self.now) self.now.op }
    {
        &self.book.ops.rows[self.op]
    }

    pub fn row(&self) -> usize
        ensures { result ≡ (seen self.now).row }
    {
        self.op
    }

    // a byte and not `Kind`: families are open, and any byte is a kind of some family
    pub fn kind(&self) -> u8
        ensures { result ≡ (seen self.now).kind }
    {
        self.operation().kind
    }

    pub fn operands(&self) -> &'a [Operand]
        ensures { result.now ≡ (seen self.now).operands }
    {
        self.operation().operands.as_slice()
    }

    // the sizes, where they are set
    pub fn sizes(&self) -> Option<&'a [u32]>
        ensures { option_map (λ z. z.now) result ≡ (seen self.now).sizes }
    {
        self.operation().sizes()
    }

    pub fn results(&self) -> &'a [Definition]
        ensures { result.now ≡ (seen self.now).results }
    {
        self.operation().results.as_slice()
    }

    fn successors(&self) -> &'a [Successor]
        ensures { map (successor_page (book_of self.now)) result.now ≡ (seen self.now).successors }
    {
        self.operation().successors.as_slice()
    }

    pub fn num_successors(&self) -> usize
        ensures { result ≡ length (seen self.now).successors }
    {
        self.successors().len()
    }

    // the successor place s, where there is one
    fn successor_at(&self, s: usize) -> Option<Successor>
        ensures { option_map (successor_page (book_of self.now)) result ≡ slice_get (seen self.now).successors s }
    {
        self.successors().get(s).copied()
    }

    // the arguments of the block that successor s names; none past the last successor
    pub fn successor_args(&self, s: usize) -> &'a [Definition]
        ensures { result.now ≡ (successor_of (seen self.now) s).args }
    {
        self.successor_at(s)
            .map_or(&[], |x| block_args(self.book, x.block))
    }

    // the rows of the regions
    pub(crate) fn region_rows(&self) -> &'a [usize]
        ensures { map (region_page (book_of self.now)) result.now ≡ (seen self.now).regions }
    {
        self.operation().regions.as_slice()
    }
}
