// Branches: what verification says of an operation that hands operands to blocks, over any family. Start with verify.rt; specs/Branch.antt
// has the definition and, above it, what an accepted branch does.
#![tactic(auto)]

mod checks;
pub mod verify;
