// The page of an operation: all that its family and its verdict may look at, and nothing else.
ghost use Rattle.std.specs.Prelude.{◌<◌, vec_len};

use book::book::Book;

mod inner;
mod own;

// The operation that the page is of is in the book. Clauses see the page through `seen` and no `impl Model`, since a page is copied, which a
// type with a lifetime and a model cannot be.
#[derive(Clone, Copy)]
pub struct OpPage<'a> {
    book: &'a Book,
    op: usize,
    ghost within: { op < vec_len book.now.ops.rows },
}
