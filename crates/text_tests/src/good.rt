// Lines that are read, and what is read of them.
use crate::shown::Shown;
use reading::problem::ReadError;
use statements::line::read_line;
use std::alloc::Global;
use std::process::Abort;
use std::test::Fail;

// A line, and the statement that it makes, written out; nothing for a line without words.
static LINES: [(&'static str, &'static str); 12] = [
    ("", ""),
    (" \t # nothing here", ""),
    ("types", "types"),
    ("\ttypes 0  65535 007# the ids", "types 0 65535 7"),
    ("block start", "block start"),
    (
        "block _b2 0 18446744073709551615",
        "block _b2 0 18446744073709551615",
    ),
    ("op a plain", "op a 0 results operands successors regions 0"),
    (
        "op a cond_br at 12:7 operands t.0 u.1 successors b c",
        "op a 3 at 12:7 results operands t.0 u.1 successors b c regions 0",
    ),
    (
        "op split 255 at - results 0 1 regions 2",
        "op split 255 at - results 0 1 operands successors regions 2",
    ),
    (
        "op a switch results operands successors regions 0",
        "op a 6 results operands successors regions 0",
    ),
    ("place a in start", "place a in start"),
    (
        "place start in a.1 # its second region",
        "place start in a.1",
    ),
];

fn reads(rt: &impl Abort, heap: Global, line: &str, says: &str) -> Result<(), Fail> {
    match read_line(heap, line.as_bytes()) {
        Ok(Some(statement)) => {
            let out = format!(in heap; "{}", Shown(&statement))?;
            assert_eq!(rt; out.as_str(), says, "{}", line);
            Ok(())
        }
        Ok(None) => {
            assert_eq!(rt; says, "", "{}", line);
            Ok(())
        },
        Err(ReadError::Malformed(problem)) => {
            Err(Fail::new(format_args!("{line}: {}", problem.expected)))
        }
        Err(ReadError::Memory) => Err(Fail::new("no memory")),
    }
}

#[test]
fn good_lines(rt: HostRuntime) -> Result<(), Fail> {
    for (line, says) in &LINES {
        reads(&rt, rt.alloc(), line, says)?;
    }
    Ok(())
}
