// What is not found in a row that is there.

// The row does not define the value.
#[derive(Clone, Copy)]
pub enum ValueError {
    NotInOpResult,
    NotInBlockArgument,
}

// No place of the operation is the use.
#[derive(Clone, Copy)]
pub enum UseError {
    OperandNotInUserOp,
    SuccessorNotInUserOp,
}
