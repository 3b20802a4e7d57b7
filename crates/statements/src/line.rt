// A whole line: blank, a statement or neither.
ghost use Rattle.reading.specs.Readings.{Read};
ghost use Rattle.statements.specs.Lines.{statement_line, statement_said, ReadsLine};

use crate::parse;
use crate::statement::Statement;
use reading::problem::{Expected, ReadError, blame};
use reading::taking::need;
use std::alloc::Global;
use text::cursor::Words;

// The statement whose word comes next.
pub fn statement(heap: Global, words: &mut Words) -> Result<Statement, ReadError>
    ensures { Read statement_line statement_said words.old words.new result }
{
    let word = need(words, Expected::Statement)?;
    if word.text == b"types".as_slice() {
        Ok(Statement::Types(parse::types(heap, words)?))
    } else if word.text == b"block".as_slice() {
        Ok(Statement::Block(parse::block(heap, words)?))
    } else if word.text == b"op".as_slice() {
        Ok(Statement::Op(parse::op(heap, words)?))
    } else if word.text == b"place".as_slice() {
        Ok(Statement::Place(parse::place(words)?))
    } else {
        Err(blame(word, Expected::Statement))
    }
}

// The statement on the line, or none where the line has no word.
pub fn read_line(heap: Global, line: &[u8]) -> Result<Option<Statement>, ReadError>
    ensures { ReadsLine line.now result }
{
    let mut words = Words::new(line);
    let mut ahead = words;
    if ahead.next().is_none() {
        return Ok(None);
    }
    Ok(Some(statement(heap, &mut words)?))
}
