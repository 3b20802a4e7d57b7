// The timing family: what the kinds of our own course programs mean. Start with family.rt; specs/Timing.antt has the definitions.
#![tactic(auto)]

pub mod branches;
pub mod family;
