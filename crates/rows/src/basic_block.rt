// The row of a block, with memory for every argument and every operation that it may ever hold.
ghost use Rattle.std.specs.Prelude.{◌≤◌, vec_capacity};
ghost use Rattle.ir.specs.Limits.{limits};

use ir::value::Definition;

mod edits;

#[derive(Drop)]
pub struct BasicBlock {
    pub args: Vec<Definition>,
    pub ops: Vec<usize>,
    pub parent: Option<usize>,
    ghost args_room: { limits.arguments ≤ vec_capacity args },
    ghost ops_room: { limits.operations ≤ vec_capacity ops },
}
