// Edits of the operands of one operation: push, pop, replace, insert, remove. Each checks first, in rising order of the
// refusals' numbers, and writes only what was granted. Start with edits.rt; the checks are in checks.rt.
#![tactic(auto)]

pub mod checks;
pub mod edits;
