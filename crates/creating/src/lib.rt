// Making operations and blocks. A spare row of the book becomes the new one, so nothing allocates. Start with operation.rt.
#![tactic(auto)]

pub mod basic_block;
mod checks;
pub mod operation;
mod places;
mod regions;
