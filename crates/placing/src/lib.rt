// The two placing calls: an operation last in a block, a block last in a region, each once. An operation may stand inside
// its own region.
#![tactic(auto)]

pub mod placing;
