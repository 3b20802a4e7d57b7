// The words of a statement looked up: names become rows and values.
use crate::course::Course;
use crate::trouble::Trouble;
use calls::call::{Call, NewOperation};
use ir::kind::Kind;
use ir::location::Location;
use ir::value::{DefiningEntity, Value};
use reading::target::Target;
use reads::basic_block::get_argument;
use reads::operation::{get_region, get_result};
use statements::statement::{OpLine, PlaceLine};
use std::alloc::Global;
use text::indexed::Indexed;
use text::names::Name;

// A kind that no checks stand for yet is turned away, so that it is never called accepted. A byte, since one without a name is a kind too.
fn checked_kind(number: u8) -> Result<u8, Trouble> {
    match Kind::try_from(number) {
        Ok(kind @ (Kind::CondBr | Kind::If | Kind::Loop | Kind::Switch)) => Err(
            Trouble::KindNotChecked(kind),
        ),
        _ => Ok(number),
    }
}

impl Course {
    // the row that goes by the name
    fn row(&self, name: &Name) -> Result<DefiningEntity, Trouble> {
        self.names.find(name).ok_or(Trouble::UnknownName(*name))
    }

    fn block(&self, name: &Name) -> Result<usize, Trouble> {
        match self.row(name)? {
            DefiningEntity::Block(b) => Ok(b),
            DefiningEntity::Op(_) => Err(Trouble::NotABlock(*name)),
        }
    }

    fn operation(&self, name: &Name) -> Result<usize, Trouble> {
        match self.row(name)? {
            DefiningEntity::Op(op) => Ok(op),
            DefiningEntity::Block(_) => Err(Trouble::NotAnOperation(*name)),
        }
    }

    // NAME.K: result K of an operation, or argument K of a block
    fn value(&self, word: &Indexed) -> Result<Value, Trouble> {
        let found = match self.row(&word.name)? {
            DefiningEntity::Op(op) => get_result(&self.book, op, word.index),
            DefiningEntity::Block(b) => get_argument(&self.book, b, word.index),
        };
        found.map_err(|_| Trouble::NoSuchPart(*word))
    }

    // NAME.K: region K of an operation
    fn region(&self, word: &Indexed) -> Result<usize, Trouble> {
        let owner = self.operation(&word.name)?;
        get_region(&self.book, owner, word.index).map_err(|_| Trouble::NoSuchPart(*word))
    }

    // `here` is where the statement stands in the course file
    pub(crate) fn op_call(
        &self,
        heap: Global,
        line: OpLine,
        here: Location,
    ) -> Result<Call, Trouble> {
        let kind = checked_kind(line.kind.into())?;
        let operands = line
            .operands
            .iter()
            .map(|word| -> Result<Value, Trouble> { self.value(word) })
            .try_collect(heap)?;
        let successors = line
            .successors
            .iter()
            .map(|name| -> Result<usize, Trouble> { self.block(name) })
            .try_collect(heap)?;
        Ok(Call::NewOperation(NewOperation {
            kind,
            location: line.location.unwrap_or(here),
            result_types: line.results,
            operands,
            successors,
            num_regions: line.regions,
        }))
    }

    pub(crate) fn place_call(&self, line: &PlaceLine) -> Result<Call, Trouble> {
        match &line.target {
            Target::Block(name) => Ok(Call::PlaceOperation(
                self.operation(&line.name)?,
                self.block(name)?,
            )),
            Target::Region(word) => Ok(Call::PlaceBlock(
                self.block(&line.name)?,
                self.region(word)?,
            )),
        }
    }
}
