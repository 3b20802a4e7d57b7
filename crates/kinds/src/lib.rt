// Families of kinds: what a family says of the kinds of operations, as functions of the page of an operation, and what is wrong with an
// operation. Start with interfaces.rt; specs/Family.antt has what a family means and the duties that it shows.
#![tactic(auto)]

pub mod fault;
pub mod interfaces;
pub mod range;
