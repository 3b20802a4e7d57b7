// How a statement takes its words from a line: problem.rt says what is wrong with a line, taking.rt takes the next word,
// and item.rt reads what it says. parts.rt and types.rt have what a word can say.
#![tactic(auto)]

pub mod item;
pub mod parts;
pub mod problem;
pub mod taking;
pub mod target;
pub mod types;
