// A statement written out, with every section of an operation and every kind by its number.
use statements::statement::{OpLine, Statement};
use std::fmt;

#[derive(Clone, Copy)]
pub struct Shown<'a>(pub &'a Statement);

impl<'a> fmt::Display for Shown<'a> {
    fn fmt<W: fmt::Write>(&self, f: &mut fmt::Formatter<W>) -> fmt::Result {
        match self.0 {
            Statement::Types(types) => {
                f.write_str("types")?;
                each(f, types.ids.as_slice())
            }
            Statement::Block(block) => {
                write!(f, "block {}", block.name)?;
                each(f, block.arguments.as_slice())
            }
            Statement::Op(op) => operation(f, op),
            Statement::Place(place) => write!(f, "place {} in {}", place.name, place.target),
        }
    }
}

// Each item, after a blank.
fn each<W: fmt::Write, T: fmt::Display>(f: &mut fmt::Formatter<W>, items: &[T]) -> fmt::Result {
    for item in items {
        write!(f, " {item}")?;
    }
    Ok(())
}

fn operation<W: fmt::Write>(f: &mut fmt::Formatter<W>, op: &OpLine) -> fmt::Result {
    write!(f, "op {} {}", op.name, u8::from(op.kind))?;
    if let Some(location) = op.location {
        write!(f, " at {location}")?;
    }
    f.write_str(" results")?;
    each(f, op.results.as_slice())?;
    f.write_str(" operands")?;
    each(f, op.operands.as_slice())?;
    f.write_str(" successors")?;
    each(f, op.successors.as_slice())?;
    write!(f, " regions {}", op.regions)
}
