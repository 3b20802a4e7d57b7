// The words of the course language: how a line is cut into words, and what a word can be. words.rt finds the next word of
// a line, by a scan of scan.rt, and cursor.rt reads a line word by word; the other files have numbers, names, kinds,
// locations and names with an index.
#![tactic(auto)]

pub mod cursor;
pub mod indexed;
pub mod kinds;
pub mod locations;
pub mod marks;
pub mod names;
pub mod numbers;
pub mod reading;
mod scan;
pub mod words;
