// The segment sizes of an operation. Sizes that are absent and an empty list of sizes are two states.
ghost use Rattle.std.specs.Prelude.{◌≡◌, ℕ, ◌≤◌, List, Option, None, Some, IfOk, length, vec_items, vec_capacity};
ghost use Rattle.std.specs.Option.{option_map};
ghost use Rattle.ir.specs.Limits.{limits};
ghost use Rattle.rows.specs.Sizes.{where_set};

use ir::limits::MAX_SEGMENTS;
use std::alloc::{AllocError, Global};
use std::marker::Model;

// The memory for the sizes stays while they are absent, so `list` counts only where `set` says so.
#[derive(Drop)]
pub struct SegmentSizes {
    set: bool,
    list: Vec<u32>,
}

impl Model for SegmentSizes {
    ghost Value = { Option (List ℕ) };

    ghost view = { λ s. where_set s.set (vec_items s.list) };

    ghost invariant = { λ s. limits.segments ≤ vec_capacity s.list };
}

impl SegmentSizes {
    // absent, with memory for every size that an operation may have
    pub fn absent(heap: Global) -> Result<SegmentSizes, AllocError>
        ensures { IfOk result (λ s. s ≡ None) }
    {
        let list = Vec::with_capacity(heap, MAX_SEGMENTS)?;
        Ok(SegmentSizes { set: false, list })
    }

    pub fn get(&self) -> Option<&[u32]>
        ensures { option_map (λ z. z.now) result ≡ self.now }
    {
        self.set.then_some(self.list.as_slice())
    }

    // these, for which there is room, in the place of what was there
    pub fn set(&mut self, sizes: &[u32])
        requires { length sizes.now ≤ limits.segments }
        ensures { self.new ≡ Some sizes.now }
    {
        self.list.clear();
        let _ = self.list.extend_from_slice(sizes);
        self.set = true;
    }

    pub fn unset(&mut self)
        ensures { self.new ≡ None }
    {
        self.set = false;
    }
}
