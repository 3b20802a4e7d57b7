// The row of a region, with memory for every block that it may ever hold.
ghost use Rattle.std.specs.Prelude.{◌≤◌, vec_capacity};
ghost use Rattle.ir.specs.Limits.{limits};

mod edits;

#[derive(Drop)]
pub struct Region {
    pub owner: usize,
    pub blocks: Vec<usize>,
    ghost blocks_room: { limits.blocks ≤ vec_capacity blocks },
}
