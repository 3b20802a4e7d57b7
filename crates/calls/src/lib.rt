// The calls of a course: what one line asks for, once its names are looked up, and how it is carried out. Start with call.rt, then apply.rt.
#![tactic(auto)]

pub mod apply;
pub mod call;
