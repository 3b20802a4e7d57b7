// What is done to the row of a region. `count` says how many blocks it lists, which bounds its list.
ghost use Rattle.std.specs.Prelude.{◌≡◌, ◌+◌, ◌<◌, vec_len};
ghost use Rattle.ir.specs.Limits.{limits};
ghost use Rattle.model.specs.Model.{new_region, with_block};
ghost use Rattle.rows.specs.Of.{region_model};

use crate::region::Region;

impl Region {
    // the row made that of a new region
    pub fn fill(&mut self, owner: usize)
        ensures after { region_model self.new ≡ new_region owner }
        ensures count { vec_len self.new.blocks ≡ 0 }
    {
        self.owner = owner;
        self.blocks.clear();
    }

    // one block more, last
    pub fn add(&mut self, b: usize)
        requires { vec_len self.old.blocks < limits.blocks }
        ensures after { region_model self.new ≡ with_block b (region_model self.old) }
        ensures count { vec_len self.new.blocks ≡ vec_len self.old.blocks + 1 }
    {
        self.blocks.push_reserved(b);
    }
}
