// Reading a book: what the row of an operation, a block or a region holds, and where a row stands. Start with operation.rt;
// specs/Rows.antt says what each call answers, specs/Parents.antt what stands where.
#![tactic(auto)]

pub mod basic_block;
pub mod operation;
pub mod places;
pub mod region;
mod standing;
