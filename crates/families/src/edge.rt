// Region edges: control leaves the operation, or a terminator in one of its regions, for a region or for what comes after the operation.
use ir::value::{Operand, Use, Value};

// Where an edge leaves. This and the next are no `Option<usize>`: an edge's two ends would be of one type.
#[derive(Clone, Copy, PartialEq, Eq)]
pub enum RegionBranchPoint {
    // the operation itself
    Parent,
    // a terminator, by its row
    Terminator(usize),
}

// Where an edge leads.
#[derive(Clone, Copy, PartialEq, Eq)]
pub enum RegionSuccessor {
    // a region, by its row
    Region(usize),
    // past the operation
    After,
}

// An operand that feeds a receiver.
#[derive(Clone, Copy, PartialEq, Eq)]
pub struct Flow {
    pub operand: Use<Operand>,
    pub receiver: Value,
}

// An edge without its lists, of which it has the lengths.
#[derive(Clone, Copy, PartialEq, Eq)]
pub struct EdgeEnds {
    pub from: RegionBranchPoint,
    pub to: RegionSuccessor,
    pub flows: usize,
    pub reads: usize,
}
