// The making of a book: the only call that allocates.
ghost use Rattle.std.specs.Prelude.{◌≡◌};
ghost use Rattle.ir.specs.Limits.{limits};
ghost use Rattle.model.specs.Steps.{make_check};
ghost use Rattle.book.specs.Of.{Makes};

use crate::book::Book;
use crate::table::Table;
use crate::unmade::Unmade;
use ir::limits::MAX_TYPES;
use ir::refusal::Refusal;
use std::alloc::Global;

// refusal 3
fn check_types(types: &[u16]) -> Result<(), Refusal>
    ensures { result ≡ make_check limits types.now }
{
    if types.len() > MAX_TYPES {
        return Err(Refusal::OverCapacity);
    }
    Ok(())
}

impl Book {
    // an empty book whose type handle i has the id `types[i]`, with all the memory that it will ever want
    pub fn new(heap: Global, types: &[u16]) -> Result<Book, Unmade>
        ensures { Makes types.now result }
    {
        check_types(types)?;
        let types = Vec::from_slice(heap, types)?;
        Ok(Book {
            types,
            ops: Table::new(heap)?,
            blocks: Table::new(heap)?,
            regions: Table::new(heap)?,
            next_value: 0,
            next_use: 0,
        })
    }
}
