// What a page has of the operation's regions: their blocks, the blocks' arguments, and the operations directly in them. Past the last region
// or block each of them answers as for one that holds nothing.
ghost use Rattle.std.specs.Prelude.{◌≡◌, map, length};
ghost use Rattle.std.specs.Option.{option_map};
ghost use Rattle.std.specs.List.{slice_get};
ghost use Rattle.pages.specs.Page.{region_page, block_page, inner_page, region_of, block_of, last_of};
ghost use Rattle.pages.specs.Seen.{seen, book_of};

use crate::by_number::{block_args, block_ops, op_kind, op_operands, region_blocks};
use crate::page::OpPage;
use ir::value::{Definition, Operand};

impl<'a> OpPage<'a> {
    pub fn num_regions(&self) -> usize
        ensures { result ≡ length (seen self.now).regions }
    {
        self.region_rows().len()
    }

    // the row of region k, where there is one
    fn region_at(&self, k: usize) -> Option<usize>
        ensures { option_map (region_page (book_of self.now)) result ≡ slice_get (seen self.now).regions k }
    {
        self.region_rows().get(k).copied()
    }

    pub fn region_row(&self, k: usize) -> usize
        ensures { result ≡ (region_of (seen self.now) k).row }
    {
        self.region_at(k).unwrap_or(0)
    }

    // the rows of the blocks of region k
    fn block_rows(&self, k: usize) -> &'a [usize]
        ensures { map (block_page (book_of self.now)) result.now ≡ (region_of (seen self.now) k).blocks }
    {
        self.region_at(k)
            .map_or(&[], |r| region_blocks(self.book, r))
    }

    pub fn num_blocks(&self, k: usize) -> usize
        ensures { result ≡ length (region_of (seen self.now) k).blocks }
    {
        self.block_rows(k).len()
    }

    // the row of block b of region k, where there is one
    fn block_at(&self, k: usize, b: usize) -> Option<usize>
        ensures { option_map (block_page (book_of self.now)) result ≡ slice_get (region_of (seen self.now) k).blocks b }
    {
        self.block_rows(k).get(b).copied()
    }

    pub fn block_row(&self, k: usize, b: usize) -> usize
        ensures { result ≡ (block_of (seen self.now) k b).row }
    {
        self.block_at(k, b).unwrap_or(0)
    }

    pub fn block_args(&self, k: usize, b: usize) -> &'a [Definition]
        ensures { result.now ≡ (block_of (seen self.now) k b).args }
    {
        self.block_at(k, b)
            .map_or(&[], |x| block_args(self.book, x))
    }

    // the rows of the operations in block b of region k
    fn op_rows(&self, k: usize, b: usize) -> &'a [usize]
        ensures { map (inner_page (book_of self.now)) result.now ≡ (block_of (seen self.now) k b).ops }
    {
        self.block_at(k, b).map_or(&[], |x| block_ops(self.book, x))
    }

    // the row of the last operation in block b of region k
    pub fn last_op(&self, k: usize, b: usize) -> Option<usize>
        ensures { option_map (inner_page (book_of self.now)) result ≡ last_of (block_of (seen self.now) k b) }
    {
        self.op_rows(k, b).last().copied()
    }

    // the kind of the operation with row t, which the page shows: a byte, as families are open
    pub fn kind_of(&self, t: usize) -> u8
        ensures { result ≡ (inner_page (book_of self.now) t).kind }
    {
        op_kind(self.book, t)
    }

    // its operands
    pub fn operands_of(&self, t: usize) -> &'a [Operand]
        ensures { result.now ≡ (inner_page (book_of self.now) t).operands }
    {
        op_operands(self.book, t)
    }
}
