ghost use Rattle.std.specs.Prelude.{◌≡◌, ◌<◌, None, vec_len, OnOk};
ghost use Rattle.model.specs.Steps.{place_op_check, place_op_step, place_block_check, place_block_step};
ghost use Rattle.model.specs.Lasts.{Lasts};
ghost use Rattle.book.specs.Of.{model_of};
ghost use Rattle.book.specs.Rows.{HasRow};

use book::book::Book;
use ir::refusal::Refusal;

// Two pairs of functions: a trait with a ghost record of rows, lists and steps, and its two impls, would be longer than they are.

// refusals 1, 14
pub fn check_place_operation(book: &Book, op: usize, b: usize) -> Result<(), Refusal>
    ensures value { result ≡ place_op_check (model_of book.now) op b }
    ensures safe { OnOk result (HasRow book.now.ops.rows op (λ o. o.parent ≡ None) × (b < vec_len book.now.blocks.rows)) }
{
    let o = book.op(op)?;
    let _b = book.block(b)?;
    if o.parent.is_some() {
        return Err(Refusal::AlreadyPlaced);
    }
    Ok(())
}

// the operation put last into the block b
pub fn place_operation(book: &mut Book, op: usize, b: usize) -> Result<(), Refusal>
    ensures step { place_op_step (model_of book.old) op b ≡ (result, model_of book.new) }
    ensures lasts { Lasts (model_of book.old) (model_of book.new) }
{
    check_place_operation(book, op, b)?;
    book.ops.rows[op].stand_in(b);
    book.blocks.rows[b].add(op);
    Ok(())
}

// refusals 1, 14
pub fn check_place_block(book: &Book, b: usize, r: usize) -> Result<(), Refusal>
    ensures value { result ≡ place_block_check (model_of book.now) b r }
    ensures safe { OnOk result (HasRow book.now.blocks.rows b (λ x. x.parent ≡ None) × (r < vec_len book.now.regions.rows)) }
{
    let x = book.block(b)?;
    let _r = book.region(r)?;
    if x.parent.is_some() {
        return Err(Refusal::AlreadyPlaced);
    }
    Ok(())
}

// the block put last into the region r
pub fn place_block(book: &mut Book, b: usize, r: usize) -> Result<(), Refusal>
    ensures step { place_block_step (model_of book.old) b r ≡ (result, model_of book.new) }
    ensures lasts { Lasts (model_of book.old) (model_of book.new) }
{
    check_place_block(book, b, r)?;
    book.blocks.rows[b].stand_in(r);
    book.regions.rows[r].add(b);
    Ok(())
}
