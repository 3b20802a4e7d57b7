// The words that every layer shares: what a value and a use are, where an operation was written, how much a book may
// hold, and why a call is refused. Start with value.rt; then refusal.rt, whose cases carry their numbers.
#![tactic(auto)]

pub mod kind;
pub mod limits;
pub mod location;
pub mod refusal;
pub mod value;
