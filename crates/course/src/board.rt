// The verdict of every operation, and whether the program may be loaded.
use branches::verify::{all_accepted, verify_operation};
use ir::value::DefiningEntity;
use session::course::Course;
use std::io;
use timing::family::Timing;

// answers whether the program may be loaded
pub fn show_board(rt: &HostRuntime, course: &Course) -> io::Result<bool> {
    for entry in course.names.entries() {
        if let DefiningEntity::Op(i) = entry.row {
            print!(rt; "verdict on {}: ", entry.name)?;
            show_verdict(rt, course, i)?;
        }
    }
    let loadable = all_accepted(&Timing, &course.book);
    if loadable {
        println!(rt; "every operation is accepted: the program may be loaded")?;
    } else {
        println!(rt; "not every operation is accepted: the program may not be loaded")?;
    }
    Ok(loadable)
}

fn show_verdict(rt: &HostRuntime, course: &Course, i: usize) -> io::Result<()> {
    match verify_operation(&Timing, &course.book, i) {
        Ok(Ok(())) => println!(rt; "accepted"),
        Ok(Err(rejection)) => println!(rt;
            "not accepted, line {}: {}",
            rejection.location, rejection.fault
        ),
        Err(_) => println!(rt; "no such operation"),
    }
}
