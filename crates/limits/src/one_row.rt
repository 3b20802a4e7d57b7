// The capacities of one operation, one block and the type list.
use crate::answer::Answer;
use crate::fresh::{BARE, FIRST, fresh, granted};
use anyhow::{Context, anyhow};
use book::book::Book;
use book::unmade::Unmade;
use creating::basic_block::new_block;
use creating::operation::new_operation;
use ir::value::Value;
use operands::edits::push_operand;
use rows::operation::new_row::NewOperation;
use std::alloc::Global;

const ZEROS: [usize; 17] = [0; 17];

// what such a call answers at each of the sizes
fn show_sizes<F: Fn(usize) -> anyhow::Result<Answer>>(
    rt: &HostRuntime,
    what: &str,
    sizes: [usize; 4],
    call: F,
) -> anyhow::Result<()>
    requires { F.IsAlwaysCallable call }
{
    let [none, short, full, over] = sizes;
    println!(rt;
        "{what} {none}, {short}, {full}, {over}: {} {} {} {}",
        call(none)?,
        call(short)?,
        call(full)?,
        call(over)?
    )?;
    Ok(())
}

// a new operation in a fresh book
fn operation(heap: Global, new: NewOperation<'_, Value>) -> anyhow::Result<Answer> {
    Ok(new_operation(&mut fresh(heap)?, new).into())
}

fn zeros(n: usize) -> anyhow::Result<&'static [usize]> {
    ZEROS.get(0..n).context("too many")
}

fn types(heap: Global, n: usize) -> anyhow::Result<Answer> {
    let ids = [0u16; 257];
    let ids = ids.get(0..n).context("too many")?;
    let made = match Book::new(heap, ids) {
        Ok(_) => Ok(()),
        Err(Unmade::Refused(refusal)) => Err(refusal),
        Err(Unmade::Memory) => return Err(anyhow!("out of memory")),
    };
    Ok(made.into())
}

pub fn show(rt: &HostRuntime) -> anyhow::Result<()> {
    let heap = rt.alloc();
    show_sizes(rt, "results", [0, 7, 8, 9], |n| {
        let result_types = zeros(n)?;
        operation(
            heap,
            NewOperation {
                result_types,
                ..BARE
            },
        )
    })?;
    show_sizes(rt, "operands", [0, 31, 32, 33], |n| {
        let values = [FIRST; 33];
        let operands = values.get(0..n).context("too many")?;
        operation(heap, NewOperation { operands, ..BARE })
    })?;
    show_sizes(rt, "successors", [0, 7, 8, 9], |n| {
        let successors = zeros(n)?;
        operation(heap, NewOperation { successors, ..BARE })
    })?;
    show_sizes(rt, "regions", [0, 7, 8, 9], |num_regions| {
        operation(
            heap,
            NewOperation {
                num_regions,
                ..BARE
            },
        )
    })?;
    show_sizes(rt, "arguments", [0, 15, 16, 17], |n| {
        Ok(new_block(&mut fresh(heap)?, zeros(n)?).into())
    })?;
    show_sizes(rt, "types", [0, 255, 256, 257], |n| types(heap, n))?;
    let (pushes, answer) = granted(heap, 100, |book| push_operand(book, 0, FIRST).into())?;
    println!(rt; "pushes granted {pushes}, then {answer}")?;
    Ok(())
}
