// Values, and the uses of values and blocks. Start with value.rt, one_use.rt and listing.rt; specs/Listing.antt says what a list
// of uses is. What values and blocks have in common stands in place.rt.
#![tactic(auto)]

pub mod error;
pub mod listing;
pub mod one_use;
mod operand;
pub mod place;
mod successor;
pub mod value;
