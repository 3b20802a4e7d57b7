// The rows of a course in readable form. Values are written with their numbers, v0, v1, ..
use crate::words::KindShown;
use book::book::Book;
use ir::value::DefiningEntity;
use rows::basic_block::BasicBlock;
use rows::operation::Operation;
use session::names::Entry;
use std::io;

pub fn show_types(rt: &HostRuntime, book: &Book) -> io::Result<()> {
    print!(rt; "types:")?;
    for (handle, id) in book.types.iter().enumerate() {
        print!(rt; " {handle} is {id}")?;
    }
    println!(rt; "")
}

// a name whose row is not in the book shows nothing
pub fn show_row(rt: &HostRuntime, book: &Book, entry: &Entry) -> io::Result<()> {
    let name = entry.name;
    match entry.row {
        DefiningEntity::Op(i) => {
            let Ok(o) = book.op(i) else {
                return Ok(());
            };
            print!(rt; "operation {i} {name}, ")?;
            show_operation(rt, o)
        }
        DefiningEntity::Block(b) => {
            let Ok(x) = book.block(b) else {
                return Ok(());
            };
            print!(rt; "block {b} {name}")?;
            show_block(rt, x)
        }
    }
}

fn show_operation(rt: &HostRuntime, o: &Operation) -> io::Result<()> {
    print!(rt; "line {}: {}", o.location, KindShown(o.kind))?;
    for d in &o.results {
        print!(rt; ", result v{} of type {}", d.val_uid, d.ty)?;
    }
    for x in &o.operands {
        print!(rt; ", operand v{}", x.value.val_uid)?;
    }
    for s in &o.successors {
        print!(rt; ", to block {}", s.block)?;
    }
    for r in &o.regions {
        print!(rt; ", region {r}")?;
    }
    if let Some(b) = o.parent {
        print!(rt; ", in block {b}")?;
    }
    println!(rt; "")
}

fn show_block(rt: &HostRuntime, x: &BasicBlock) -> io::Result<()> {
    for d in &x.args {
        print!(rt; ", argument v{} of type {}", d.val_uid, d.ty)?;
    }
    if let Some(r) = x.parent {
        print!(rt; ", in region {r}")?;
    }
    println!(rt; "")
}
