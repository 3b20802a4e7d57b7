// A whole course file, line by line, up to the first line that is wrong.
ghost use Rattle.std.specs.Prelude.{◌≡◌, IfOk};
ghost use Rattle.model.specs.Model.{empty};
ghost use Rattle.book.specs.Of.{model_of};
ghost use Rattle.session.specs.Entered.{CourseLed, SoFar};

use crate::course::Course;
use crate::enter::enter;
use crate::failure::{Failure, Wrong};
use crate::lines::Line;
use crate::names::Names;
use crate::trouble::Trouble;
use book::book::Book;
use ir::location::Location;
use statements::line::read_line;
use statements::statement::{Statement, TypesLine};
use std::alloc::Global;

// the course that a first line with types begins
fn begin(heap: Global, types: TypesLine) -> Result<Course, Trouble>
    ensures { IfOk result (λ c. model_of c.book ≡ empty types.ids.items) }
{
    let book = Book::new(heap, &types.ids)?;
    Ok(Course {
        book,
        names: Names::new(heap),
    })
}

// a statement, on the course so far or at its beginning
fn go_on(
    heap: Global,
    course: Option<Course>,
    statement: Statement,
    here: Location,
) -> Result<Course, Trouble>
    ensures { SoFar course → IfOk result CourseLed }
{
    match (course, statement) {
        (None, Statement::Types(types)) => begin(heap, types),
        (None, _) => Err(Trouble::TypesMissing),
        (Some(mut course), statement) => {
            enter(heap, &mut course, statement, here)?;
            Ok(course)
        }
    }
}

// the course after the line, where it has one
fn read_one(heap: Global, course: Option<Course>, line: &Line<'_>) -> Result<Option<Course>, Wrong>
    ensures { SoFar course → IfOk result SoFar }
{
    let Some(statement) = read_line(heap, line.text)? else {
        return Ok(course);
    };
    Ok(Some(go_on(heap, course, statement, line.here())?))
}

// the course that the text says, or its first line that is wrong
pub fn read_course(heap: Global, text: &[u8]) -> Result<Course, Failure>
    ensures { IfOk result CourseLed }
{
    let mut course = None;
    let mut line = 1;
    let mut start: usize = 0;
    for (before, bytes) in text.split_inclusive(|b| *b == b'\n').enumerate() {
        let now = Line::new(before, bytes);
        line = now.number;
        // a match, since `map_err` and `?` are not proved here
        course = match read_one(heap, course, &now) {
            Ok(next) => next,
            Err(wrong) => return Err(Failure { line, start, wrong }),
        };
        start = start.saturating_add(bytes.len());
    }
    course.ok_or(Failure {
        line,
        start: text.len(),
        wrong: Wrong::Trouble(Trouble::TypesMissing),
    })
}
