// The rows of each table, and the uses that a book makes in its life.
use crate::answer::Answer;
use crate::fresh::{BARE, FIRST, fresh, granted};
use anyhow::{Context, ensure};
use book::book::Book;
use creating::basic_block::new_block;
use creating::operation::new_operation;
use operands::edits::{insert_operand, push_operand, replace_operand};
use rows::operation::new_row::NewOperation;
use std::alloc::Global;

fn operation(book: &mut Book, num_regions: usize) -> Answer {
    new_operation(
        book,
        NewOperation {
            num_regions,
            ..BARE
        },
    )
    .into()
}

// with all regions taken, one more is refused, and an operation without regions is not
fn after_regions(heap: Global) -> anyhow::Result<(Answer, Answer)> {
    let mut book = fresh(heap)?;
    for _ in 0..16 {
        ensure!(operation(&mut book, 8).is_granted(), "too few regions");
    }
    Ok((operation(&mut book, 1), operation(&mut book, 0)))
}

// a book that has made all its uses but `left`
fn worn(heap: Global, left: usize) -> anyhow::Result<Book> {
    let mut book = fresh(heap)?;
    push_operand(&mut book, 0, FIRST).context("the first use was refused")?;
    // one use is made; no `skip(1)` from 1,000,000, which made the run half as long again
    for _ in left..999_999 {
        replace_operand(&mut book, 0, 0, FIRST).context("too few uses")?;
    }
    Ok(book)
}

fn show_uses(rt: &HostRuntime) -> anyhow::Result<()> {
    let mut book = worn(rt.alloc(), 1)?;
    let user = NewOperation {
        operands: &[FIRST],
        ..BARE
    };
    let branch = NewOperation {
        successors: &[0],
        ..user
    };
    let both = Answer::from(new_operation(&mut book, branch));
    let last = Answer::from(push_operand(&mut book, 0, FIRST));
    println!(rt;
        "one use left: an operation with an operand and a successor {both}, a push {last}"
    )?;
    let push = Answer::from(push_operand(&mut book, 0, FIRST));
    let replace = Answer::from(replace_operand(&mut book, 0, 0, FIRST));
    let insert = Answer::from(insert_operand(&mut book, 0, 0, FIRST));
    let user = Answer::from(new_operation(&mut book, user));
    let plain = operation(&mut book, 0);
    println!(rt;
        "no use left: push {push}, replace {replace}, insert {insert}, an operation with an operand {user}, one without {plain}"
    )?;
    Ok(())
}

pub fn show(rt: &HostRuntime) -> anyhow::Result<()> {
    let heap = rt.alloc();
    let (rows, answer) = granted(heap, 1000, |book| operation(book, 0))?;
    println!(rt; "operations after the first granted {rows}, then {answer}")?;
    let (rows, answer) = granted(heap, 1000, |book| new_block(book, &[]).into())?;
    println!(rt; "blocks after the first granted {rows}, then {answer}")?;
    let (rows, answer) = granted(heap, 1000, |book| operation(book, 8))?;
    println!(rt; "operations with 8 regions granted {rows}, then {answer}")?;
    let (one, none) = after_regions(heap)?;
    println!(rt; "no region left: with a region {one}, without {none}")?;
    show_uses(rt)
}
