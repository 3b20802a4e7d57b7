// What is done to the row of an operation.
ghost use Rattle.std.specs.Prelude.{◌≡◌, ◌<◌, ◌≤◌, vec_len, slice_set};
ghost use Rattle.std.specs.Option.{option_map};
ghost use Rattle.std.specs.List.{insert, remove};
ghost use Rattle.ir.specs.Limits.{limits};
ghost use Rattle.model.specs.Model.{with_operands, op_in};
ghost use Rattle.rows.specs.Of.{op_model};
ghost use Rattle.rows.specs.NewRow.{IsFew, IsLow, row_model};

use crate::fills::{fill_numbered, fill_rows};
use crate::operation::Operation;
use crate::operation::new_row::{FirstNumbers, NewOperation};
use ir::value::Operand;

impl Operation {
    // the row made that of a new operation
    pub fn fill(&mut self, new: NewOperation<'_, Operand>, first: FirstNumbers)
        requires few { IsFew new }
        requires low { IsLow first }
        ensures { op_model self.new ≡ row_model new.entry first }
    {
        self.kind = new.kind;
        self.location = new.location;
        fill_numbered(&mut self.results, new.result_types, first.value);
        self.operands.clear();
        // there is room, so neither this nor the inserting below can fail
        let _ = self.operands.extend_from_slice(new.operands);
        fill_numbered(&mut self.successors, new.successors, first.block_use);
        fill_rows(&mut self.regions, first.region, new.num_regions);
        self.sizes.unset();
        self.parent = None;
    }

    // x put in at k, for which there is room
    pub fn insert(&mut self, k: usize, x: Operand)
        requires within { k ≤ vec_len self.old.operands }
        requires few { vec_len self.old.operands < limits.operands }
        ensures { op_model self.new ≡ with_operands (λ xs. insert xs k x) (op_model self.old) }
    {
        let _ = self.operands.insert(k, x);
    }

    // x in the place of the operand k
    pub fn replace(&mut self, k: usize, x: Operand)
        requires { k < vec_len self.old.operands }
        ensures { op_model self.new ≡ with_operands (λ xs. slice_set xs k x) (op_model self.old) }
    {
        self.operands[k] = x;
    }

    // the operand k taken out
    pub fn remove(&mut self, k: usize)
        requires { k < vec_len self.old.operands }
        ensures { op_model self.new ≡ with_operands (λ xs. remove xs k) (op_model self.old) }
    {
        let _ = self.operands.remove(k);
    }

    pub fn stand_in(&mut self, b: usize)
        ensures { op_model self.new ≡ op_in b (op_model self.old) }
    {
        self.parent = Some(b);
    }

    // the sizes, where they are set
    pub fn sizes(&self) -> Option<&[u32]>
        ensures { option_map (λ z. z.now) result ≡ (op_model self.now).body.sizes }
    {
        self.sizes.get()
    }
}
