// Finding rows and values. A value is found only if the very row that it names defines its number. The readers of the three tables are
// one expression each, so a trait over the tables would be longer.
ghost use Rattle.std.specs.Prelude.{◌≡◌, ◌<◌, length, IfOk, vec_len, slice_index_or};
ghost use Rattle.ir.specs.Limits.{limits};
ghost use Rattle.model.specs.Model.{type_of};
ghost use Rattle.model.specs.Checks.{map_ok, op_row, block_row, region_row, value_type};
ghost use Rattle.model.specs.Sound.{Sound};
ghost use Rattle.rows.specs.Of.{op_model, block_model, region_model};
ghost use Rattle.book.specs.Of.{model_of};

use crate::book::Book;
use ir::refusal::Refusal;
use ir::value::{DefiningEntity, Value};
use rows::basic_block::BasicBlock;
use rows::operation::Operation;
use rows::region::Region;
use rows::scan::find_type;

impl Book {
    // what holds of every book: nothing to run, a fact for whoever calls it
    pub fn sound(&self)
        ensures { Sound limits (model_of self.now) }
    {}

    pub fn num_types(&self) -> usize
        ensures { result ≡ length (model_of self.now).types }
    {
        self.types.len()
    }

    pub fn num_ops(&self) -> usize
        ensures rows { result ≡ length (model_of self.now).ops }
        ensures len { result ≡ vec_len self.now.ops.rows }
    {
        self.ops.rows.len()
    }

    pub fn num_blocks(&self) -> usize
        ensures rows { result ≡ length (model_of self.now).blocks }
        ensures len { result ≡ vec_len self.now.blocks.rows }
    {
        self.blocks.rows.len()
    }

    pub fn num_regions(&self) -> usize
        ensures rows { result ≡ length (model_of self.now).regions }
        ensures len { result ≡ vec_len self.now.regions.rows }
    {
        self.regions.rows.len()
    }

    // the operation i, or refusal 1
    pub fn op(&self, i: usize) -> Result<&Operation, Refusal>
        ensures value { map_ok (λ o. op_model o.now) result ≡ op_row (model_of self.now) i }
        ensures there { IfOk result (λ o. (i < vec_len self.now.ops.rows) × (o.now ≡ slice_index_or self.now.ops.rows.items i o.now)) }
    {
        self.ops.rows.get(i).ok_or(Refusal::NoRow)
    }

    // the block b, or refusal 1
    pub fn block(&self, b: usize) -> Result<&BasicBlock, Refusal>
        ensures value { map_ok (λ x. block_model x.now) result ≡ block_row (model_of self.now) b }
        ensures there { IfOk result (λ x. (b < vec_len self.now.blocks.rows) × (x.now ≡ slice_index_or self.now.blocks.rows.items b x.now)) }
    {
        self.blocks.rows.get(b).ok_or(Refusal::NoRow)
    }

    // the region r, or refusal 1
    pub fn region(&self, r: usize) -> Result<&Region, Refusal>
        ensures value { map_ok (λ x. region_model x.now) result ≡ region_row (model_of self.now) r }
        ensures there { IfOk result (λ x. (r < vec_len self.now.regions.rows) × (x.now ≡ slice_index_or self.now.regions.rows.items r x.now)) }
    {
        self.regions.rows.get(r).ok_or(Refusal::NoRow)
    }

    // the type of a value, where its row defines it
    pub fn type_of(&self, v: Value) -> Option<usize>
        ensures { result ≡ type_of (model_of self.now) v }
    {
        match v.defining_entity {
            DefiningEntity::Op(i) => find_type(&self.op(i).ok()?.results, v.val_uid),
            DefiningEntity::Block(b) => find_type(&self.block(b).ok()?.args, v.val_uid),
        }
    }

    // the type of a value, or refusal 2 with the value's number
    pub fn value_type(&self, v: Value) -> Result<usize, Refusal>
        ensures { result ≡ value_type (model_of self.now) v }
    {
        self.type_of(v).ok_or(Refusal::NoValue(v.val_uid))
    }
}
