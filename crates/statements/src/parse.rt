// One function for each statement, which reads what follows the statement's word.
ghost use Rattle.reading.specs.Readings.{Read};
ghost use Rattle.statements.specs.Said.{types_said, block_said, op_said, place_said};
ghost use Rattle.statements.specs.Statements.{types_line, block_line, op_line, place_line};

use crate::lists::list;
use crate::sections;
use crate::statement::{BlockLine, OpLine, PlaceLine, TypesLine};
use reading::item::next;
use reading::parts::{At, In, Regions};
use reading::problem::{Expected, ReadError};
use reading::taking::finish;
use reading::target::Target;
use reading::types::{TypeHandle, TypeId};
use std::alloc::Global;
use text::cursor::Words;
use text::indexed::Indexed;
use text::kinds::KindWord;
use text::names::Name;

pub fn types(heap: Global, words: &mut Words) -> Result<TypesLine, ReadError>
    ensures { Read types_line types_said words.old words.new result }
{
    let ids = list::<TypeId>(heap, words)?;
    finish(words, Expected::TypeId)?;
    Ok(TypesLine { ids })
}

pub fn block(heap: Global, words: &mut Words) -> Result<BlockLine, ReadError>
    ensures { Read block_line block_said words.old words.new result }
{
    let name = next::<Name>(words)?;
    let arguments = list::<TypeHandle>(heap, words)?;
    finish(words, Expected::TypeHandle)?;
    Ok(BlockLine { name, arguments })
}

pub fn op(heap: Global, words: &mut Words) -> Result<OpLine, ReadError>
    ensures { Read op_line op_said words.old words.new result }
{
    let name = next::<Name>(words)?;
    let kind = next::<KindWord>(words)?;
    let location = sections::single::<At>(words, b"at", None)?;
    let results = sections::listed::<TypeHandle>(heap, words, b"results")?;
    let operands = sections::listed::<Indexed>(heap, words, b"operands")?;
    let successors = sections::listed::<Name>(heap, words, b"successors")?;
    let regions = sections::single::<Regions>(words, b"regions", 0)?;
    finish(words, Expected::Section)?;
    Ok(OpLine {
        name,
        kind,
        location,
        results,
        operands,
        successors,
        regions,
    })
}

pub fn place(words: &mut Words) -> Result<PlaceLine, ReadError>
    ensures { Read place_line place_said words.old words.new result }
{
    let name = next::<Name>(words)?;
    next::<In>(words)?;
    let target = next::<Target>(words)?;
    finish(words, Expected::EndOfLine)?;
    Ok(PlaceLine { name, target })
}
