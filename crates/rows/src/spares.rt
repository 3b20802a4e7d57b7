// Rows that hold nothing as yet, with all their memory: what the making of a book takes.
ghost use Rattle.std.specs.Result.{MatchResult};

use crate::basic_block::BasicBlock;
use crate::operation::Operation;
use crate::operation::sizes::SegmentSizes;
use crate::region::Region;
use ir::limits::{
    MAX_ARGUMENTS, MAX_BLOCKS, MAX_OP_REGIONS, MAX_OPERANDS, MAX_OPERATIONS, MAX_RESULTS,
    MAX_SUCCESSORS,
};
use ir::location::Location;
use std::alloc::{AllocError, Global};

// A row that can be made with all its memory, or else finds none.
pub trait Spare {
    fn spare(heap: Global) -> Result<Self, AllocError>;
}

impl Spare for Operation {
    fn spare(heap: Global) -> Result<Operation, AllocError> {
        let results = Vec::with_capacity(heap, MAX_RESULTS)?;
        let operands = Vec::with_capacity(heap, MAX_OPERANDS)?;
        let successors = Vec::with_capacity(heap, MAX_SUCCESSORS)?;
        let regions = Vec::with_capacity(heap, MAX_OP_REGIONS)?;
        let sizes = SegmentSizes::absent(heap)?;
        Ok(Operation {
            kind: 0,
            location: Location::Unknown,
            results,
            operands,
            successors,
            regions,
            sizes,
            parent: None,
        })
    }
}

impl Spare for BasicBlock {
    fn spare(heap: Global) -> Result<BasicBlock, AllocError> {
        let args = Vec::with_capacity(heap, MAX_ARGUMENTS)?;
        let ops = Vec::with_capacity(heap, MAX_OPERATIONS)?;
        Ok(BasicBlock {
            args,
            ops,
            parent: None,
        })
    }
}

impl Spare for Region {
    fn spare(heap: Global) -> Result<Region, AllocError> {
        let blocks = Vec::with_capacity(heap, MAX_BLOCKS)?;
        Ok(Region { owner: 0, blocks })
    }
}
