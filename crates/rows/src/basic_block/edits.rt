// What is done to the row of a block. `count` says how many operations it lists, which bounds its list.
ghost use Rattle.std.specs.Prelude.{◌≡◌, ◌+◌, ◌<◌, ◌≤◌, length, vec_len};
ghost use Rattle.ir.specs.Limits.{limits};
ghost use Rattle.model.specs.Model.{new_block, with_op, block_in};
ghost use Rattle.rows.specs.Of.{block_model};

use crate::basic_block::BasicBlock;
use crate::fills::fill_numbered;

impl BasicBlock {
    // the row made that of a new block
    pub fn fill(&mut self, types: &[usize], first_value: u32)
        requires { (length types.now ≤ limits.arguments) × (first_value ≤ limits.uses) }
        ensures after { block_model self.new ≡ new_block types.now first_value }
        ensures count { vec_len self.new.ops ≡ 0 }
    {
        fill_numbered(&mut self.args, types, first_value);
        self.ops.clear();
        self.parent = None;
    }

    // one operation more, last
    pub fn add(&mut self, i: usize)
        requires { vec_len self.old.ops < limits.operations }
        ensures after { block_model self.new ≡ with_op i (block_model self.old) }
        ensures count { vec_len self.new.ops ≡ vec_len self.old.ops + 1 }
    {
        self.ops.push_reserved(i);
    }

    pub fn stand_in(&mut self, r: usize)
        ensures after { block_model self.new ≡ block_in r (block_model self.old) }
        ensures count { vec_len self.new.ops ≡ vec_len self.old.ops }
    {
        self.parent = Some(r);
    }
}
