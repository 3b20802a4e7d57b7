// Values: type, place and defining row. A value is found only if the very row that it names defines its number.
ghost use Rattle.std.specs.Prelude.{◌≡◌};
ghost use Rattle.book.specs.Of.{model_of};
ghost use Rattle.model.specs.Checks.{map_ok, value_type};
ghost use Rattle.uses.specs.Find.{index_in};
ghost use Rattle.uses.specs.Values.{id_of_type, value_index, value_entity, definitions_of, lacks, try_value_index};

use crate::error::ValueError;
use book::book::Book;
use ir::refusal::Refusal;
use ir::value::{DefiningEntity, Definition, Value};
use reads::places::item;

// the type, a handle into the book's type list
pub fn get_type(book: &Book, v: Value) -> Result<usize, Refusal>
    ensures { result ≡ value_type (model_of book.now) v }
{
    book.value_type(v)
}

// the id of a type handle
pub fn type_id(book: &Book, ty: usize) -> Result<u16, Refusal>
    ensures { result ≡ id_of_type (model_of book.now) ty }
{
    item(&book.types, ty).ok_or(Refusal::NoRow)
}

// the values of a row
fn definitions(book: &Book, row: DefiningEntity) -> Result<&[Definition], Refusal>
    ensures { map_ok (λ ds. ds.now) result ≡ definitions_of (model_of book.now) row }
{
    match row {
        DefiningEntity::Op(i) => Ok(&book.op(i)?.results),
        DefiningEntity::Block(b) => Ok(&book.block(b)?.args),
    }
}

// the place of the first with the number n
fn index(ds: &[Definition], n: u32) -> Option<usize>
    ensures { result ≡ index_in (λ d. d.val_uid) n ds.now }
{
    ds.iter().position(|d| d.val_uid == n)
}

// the place among the results or arguments of its row
pub fn find_index(book: &Book, v: Value) -> Result<usize, Refusal>
    ensures { result ≡ value_index (model_of book.now) v }
{
    definitions(book, v.defining_entity)
        .ok()
        .and_then(|ds| index(ds, v.val_uid))
        .ok_or(Refusal::NoValue(v.val_uid))
}

// why a row lacks a value
fn lack(row: DefiningEntity) -> ValueError
    ensures { result ≡ lacks row }
{
    match row {
        DefiningEntity::Op(_) => ValueError::NotInOpResult,
        DefiningEntity::Block(_) => ValueError::NotInBlockArgument,
    }
}

// the place among the results or arguments of its row, or why the row, which is there, lacks it
pub fn try_find_index(book: &Book, v: Value) -> Result<Result<usize, ValueError>, Refusal>
    ensures { result ≡ try_value_index (model_of book.now) v }
{
    let ds = definitions(book, v.defining_entity)?;
    Ok(index(ds, v.val_uid).ok_or(lack(v.defining_entity)))
}

// the row that defines the value
pub fn get_defining_entity(book: &Book, v: Value) -> Result<DefiningEntity, Refusal>
    ensures { result ≡ value_entity (model_of book.now) v }
{
    get_type(book, v)?;
    Ok(v.defining_entity)
}
