// Reads a course file, carries it out line by line, verifies every operation, and says whether the program may be loaded.
#![tactic(auto)]

use anyhow::anyhow;
use session::course::Course;
use session::failure::FailureShown;
use session::read::read_course;
use std::io::Read;
use std::{env, fs, io};

mod board;
mod row_lines;
mod words;

// the file that the argument names, or else standard input
fn text(rt: &HostRuntime) -> io::Result<Vec<u8>> {
    let mut args = env::args(rt)?;
    let _program = args.next();
    match args.next() {
        Some(path) => fs::read(rt, path.as_str()),
        None => {
            let mut bytes = Vec::new(rt.alloc());
            rt.stdin().read_to_end(&mut bytes)?;
            Ok(bytes)
        }
    }
}

fn show(rt: &HostRuntime, course: &Course) -> io::Result<bool> {
    row_lines::show_types(rt, &course.book)?;
    for entry in course.names.entries() {
        row_lines::show_row(rt, &course.book, entry)?;
    }
    board::show_board(rt, course)
}

fn run(rt: &HostRuntime) -> anyhow::Result<()> {
    let bytes = text(rt)?;
    match read_course(rt.alloc(), &bytes) {
        Ok(course) => {
            if show(rt, &course)? {
                Ok(())
            } else {
                Err(anyhow!("the program may not be loaded"))
            }
        }
        Err(failure) => {
            let text = bytes.as_slice();
            eprintln!(rt; "{}", FailureShown { failure, text })?;
            Err(anyhow!("the course was not read to its end"))
        }
    }
}

// status 0 only where the whole file was read and every operation is accepted
fn main(rt: HostRuntime) -> anyhow::Result<()> {
    run(&rt)
}
