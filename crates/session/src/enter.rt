// A statement carried out on a course. Where it is not, the book is as it was.
ghost use Rattle.book.specs.Of.{model_of};
ghost use Rattle.session.specs.Entered.{Entered};

use crate::course::Course;
use crate::trouble::Trouble;
use book::book::Book;
use calls::apply::apply;
use calls::call::Call;
use ir::location::Location;
use ir::value::DefiningEntity;
use statements::statement::Statement;
use std::alloc::Global;
use text::names::Name;

// the row that the statement made, if it makes one. `here` is where it stands in the course file
pub fn enter(
    heap: Global,
    course: &mut Course,
    statement: Statement,
    here: Location,
) -> Result<Option<DefiningEntity>, Trouble>
    ensures { Entered (model_of course.old.book) result (model_of course.new.book) }
{
    match statement {
        Statement::Types(_) => Err(Trouble::TypesAgain),
        Statement::Block(line) => make(course, line.name, Call::NewBlock(line.arguments)),
        Statement::Op(line) => {
            let name = line.name;
            let call = course.op_call(heap, line, here)?;
            make(course, name, call)
        }
        Statement::Place(line) => {
            let call = course.place_call(&line)?;
            carry_out(&mut course.book, &call)
        }
    }
}

// a call that makes a row, which goes by the name from then on
fn make(course: &mut Course, name: Name, call: Call) -> Result<Option<DefiningEntity>, Trouble>
    ensures { Entered (model_of course.old.book) result (model_of course.new.book) }
{
    if course.names.find(&name).is_some() {
        return Err(Trouble::NameTaken(name));
    }
    course.names.reserve()?;
    let made = carry_out(&mut course.book, &call)?;
    if let Some(row) = made {
        course.names.add(name, row);
    }
    Ok(made)
}

fn carry_out(book: &mut Book, call: &Call) -> Result<Option<DefiningEntity>, Trouble>
    ensures { Entered (model_of book.old) result (model_of book.new) }
{
    Ok(apply(book, call)?)
}
