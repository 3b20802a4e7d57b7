// A course being read: its book, the names that its lines gave, and how a line is carried out. Start with course.rt, then enter.rt and read.rt.
#![tactic(auto)]

pub mod course;
pub mod enter;
pub mod failure;
pub mod lines;
pub mod names;
pub mod read;
mod resolve;
pub mod trouble;
