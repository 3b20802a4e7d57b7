// The rows of a book: operations, blocks and regions, each with memory for all that it may ever hold, and what is done to
// one row. Start with operation.rt; specs/Of.antt says what a row means in the model.
#![tactic(auto)]

pub mod basic_block;
mod fills;
pub mod operation;
pub mod region;
pub mod scan;
pub mod spares;
