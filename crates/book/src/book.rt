// The tables of a book, and the numbers that come next.
ghost use Rattle.std.specs.Prelude.{◌≡◌, ◌+◌, ◌*◌, ◌≤◌, vec_len};
ghost use Rattle.ir.specs.Limits.{limits};
ghost use Rattle.model.specs.Sound.{Sound};
ghost use Rattle.rows.specs.Counts.{listed_ops, placed_ops, listed_blocks, placed_blocks};
ghost use Rattle.book.specs.Parts.{parts};

use crate::table::Table;
use ir::limits::{MAX_BLOCKS, MAX_OPERATIONS, MAX_REGIONS};
use rows::basic_block::BasicBlock;
use rows::operation::Operation;
use rows::region::Region;

// `made`: no more values than the rows can hold. `fit`: no more operations are listed in blocks than stand in one, nor blocks
// in regions, so a list of them has always room for one that stands nowhere. `sound`: what holds of every book. The crates above write
// its fields, so what a book means is a function of them, `model_of`, and no `impl Model`
#[derive(Drop)]
pub struct Book {
    pub types: Vec<u16>,
    pub ops: Table<Operation, MAX_OPERATIONS>,
    pub blocks: Table<BasicBlock, MAX_BLOCKS>,
    pub regions: Table<Region, MAX_REGIONS>,
    pub next_value: u32,
    pub next_use: u32,
    ghost made: { next_value ≤ limits.results * vec_len ops.rows + limits.arguments * vec_len blocks.rows },
    ghost fit: { (listed_ops blocks.rows.items ≤ placed_ops ops.rows.items) × (listed_blocks regions.rows.items ≤ placed_blocks blocks.rows.items) },
    ghost sound: { ∥ Sound limits (parts types.items ops.rows.items blocks.rows.items regions.rows.items next_value next_use) ∥₁ },
}
