// Books to begin with, and calls on them.
use crate::answer::Answer;
use anyhow::{Context, anyhow};
use book::book::Book;
use creating::basic_block::new_block;
use creating::operation::new_operation;
use ir::location::Location;
use ir::value::{DefiningEntity, Value};
use rows::operation::new_row::NewOperation;
use std::alloc::Global;

// the result of operation 0
pub const FIRST: Value = Value {
    val_uid: 0,
    defining_entity: DefiningEntity::Op(0),
};

// an operation that has nothing
pub const BARE: NewOperation<'static, Value> = NewOperation {
    kind: 0,
    location: Location::Unknown,
    result_types: &[],
    operands: &[],
    successors: &[],
    num_regions: 0,
};

// a book with operation 0, which has one result, and block 0
pub fn fresh(heap: Global) -> anyhow::Result<Book> {
    // its own words alone, without the cause
    let mut book = Book::new(heap, &[7]).map_err(|_| anyhow!("no book was made"))?;
    let with_result = NewOperation {
        result_types: &[0],
        ..BARE
    };
    new_operation(&mut book, with_result).context("operation 0 was refused")?;
    new_block(&mut book, &[]).context("block 0 was refused")?;
    Ok(book)
}

// how many such calls a fresh book grants, and what it answers to the next; `most` is more than it may grant
pub fn granted<F: Fn(&mut Book) -> Answer>(
    heap: Global,
    most: usize,
    call: F,
) -> anyhow::Result<(usize, Answer)>
    requires { F.IsAlwaysCallable call }
{
    let mut book = fresh(heap)?;
    for n in 0..most {
        let answer = call(&mut book);
        if !answer.is_granted() {
            return Ok((n, answer));
        }
    }
    Err(anyhow!("no end of such calls"))
}
