// What asks for memory succeeds where there is some, which no contract says: a table, segment sizes, and a whole book.
#![tactic(auto)]

#[cfg(test)]
mod making;
