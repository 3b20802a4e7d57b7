// The statements of the course language, one to a line. Start with statement.rt, which has what a line can say; then
// line.rt, which reads a line, and parse.rt, which has a function for each statement.
#![tactic(auto)]

pub mod line;
pub mod lists;
pub mod parse;
pub mod sections;
pub mod statement;
