// The row of an operation. Each list has its memory from the making on, so that no edit allocates: the ghost fields.
ghost use Rattle.std.specs.Prelude.{◌≤◌, vec_capacity};
ghost use Rattle.ir.specs.Limits.{limits};

use crate::operation::sizes::SegmentSizes;
use ir::location::Location;
use ir::value::{Definition, Operand, Successor};

mod edits;
pub mod new_row;
pub mod sizes;

#[derive(Drop)]
pub struct Operation {
    // a byte and not `Kind`: families are open, and any byte is a kind of some family
    pub kind: u8,
    pub location: Location,
    pub results: Vec<Definition>,
    pub operands: Vec<Operand>,
    pub successors: Vec<Successor>,
    pub regions: Vec<usize>,
    pub sizes: SegmentSizes,
    pub parent: Option<usize>,
    ghost results_room: { limits.results ≤ vec_capacity results },
    ghost operands_room: { limits.operands ≤ vec_capacity operands },
    ghost successors_room: { limits.successors ≤ vec_capacity successors },
    ghost regions_room: { limits.op_regions ≤ vec_capacity regions },
}
