// Why an operation is not accepted: one enum for every check, in the order of the checks, each case with its words.
use ir::location::Location;
use ir::refusal::LayoutCode;
use thiserror::Error;

// Types are handles of the book's type list.
#[derive(Clone, Copy, Debug, PartialEq, Eq, Error)]
pub enum Fault {
    // ---- segments

    #[error("no segment sizes are set")]
    OperandSegmentSizesAttrErr,
    // the total of the sizes, and the number of operands
    #[error("the segment sizes total {0}, the operands are {1}")]
    OperandSegmentSizesTotalMismatchErr(usize, usize),
    // the number of segments that the kind has, and the number of sizes
    #[error("has {1} segments where {0} are expected")]
    SegmentCountMismatch(usize, usize),

    // ---- branches and region branches: the layout is tested before all else

    // the family's code for a layout that it does not accept
    #[error("layout not accepted, code {0}")]
    Layout(LayoutCode),

    // ---- branches

    // operands that a branch hands to a block, and arguments that the block has
    #[error("hands {0} operands to a block with {1} arguments")]
    SuccessorOperandsMismatch(usize, usize),
    // the argument, the type that is handed to it, and the type that it has
    #[error("hands type {1} to argument {0} of type {2}")]
    SuccessorOperandTypeMismatch(usize, usize, usize),

    // ---- region branches, edge by edge

    // the edge feeds other receivers than the first edge to the same destination
    #[error("two edges to one destination feed different receivers")]
    ReceiverSetMismatch,
    #[error("an edge leaves an operation that is no terminator in its regions")]
    InvalidTerminator,
    // a read of the edge is no operand of this operation, nor of the one that the edge leaves
    #[error("an edge reads an operand of another operation")]
    ReadNotOpOrSourceOperand,
    #[error("an edge leads to a region of another operation")]
    ForeignRegionSuccessor,
    // a flow takes no operand of the operation that the edge leaves
    #[error("a flow takes an operand of another operation than its edge leaves")]
    OperandNotAtBranchPoint,
    #[error("a flow into a region feeds no argument of its entry block")]
    ReceiverNotRegionArgument,
    // a flow to After feeds no result of this operation
    #[error("a flow out of the regions feeds no result")]
    ReceiverNotResult,
    #[error("two flows of one edge feed one receiver")]
    DuplicateReceiver,
    // the type of the operand, and that of the receiver
    #[error("type {0} flows into type {1}")]
    FlowTypeMismatch(usize, usize),

    // ---- type tests

    // operands that are there, and operands that are wanted
    #[error("has {0} operands where {1} are needed")]
    NotEnoughOperands(usize, usize),
    // the operand among all operands, and its type
    #[error("operand {0} has the unexpected type {1}")]
    UnexpectedOperandType(usize, usize),
    #[error("has no segment {0}")]
    SegmentNotFound(usize),
    // the type of an operand of the segment
    #[error("an operand of the segment has the unexpected type {0}")]
    UnexpectedSegmentType(usize),
}

// A fault, with the operation and where it was written.
#[derive(Clone, Copy, PartialEq, Eq)]
pub struct Rejection {
    pub op: usize,
    pub location: Location,
    pub fault: Fault,
}

// What verification says of an operation: accepted, or rejected.
pub type Verdict = Result<(), Rejection>;
