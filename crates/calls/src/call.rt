// A call with all that it is handed.
use ir::location::Location;
use ir::value::Value;

#[derive(Drop)]
pub struct NewOperation {
    // a byte and not `Kind`: families are open, and any byte is a kind of some family
    pub kind: u8,
    pub location: Location,
    pub result_types: Vec<usize>,
    pub operands: Vec<Value>,
    pub successors: Vec<usize>,
    pub num_regions: usize,
}

#[derive(Drop)]
pub enum Call {
    NewOperation(NewOperation),
    // the types of its arguments
    NewBlock(Vec<usize>),
    // the operation, and the block
    PlaceOperation(usize, usize),
    // the block, and the region
    PlaceBlock(usize, usize),
}
