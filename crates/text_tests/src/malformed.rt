// Lines that are refused: the column, the word that is wrong and what should stand in its place.
use reading::problem::{Expected, ReadError};
use statements::line::read_line;
use std::alloc::Global;
use std::process::Abort;
use std::test::Fail;

// A line, the column and the text of the word that is wrong, and what should stand there.
type Row = (&'static str, usize, &'static str, Expected);

static STATEMENTS_AND_TYPES: [Row; 12] = [
    ("typos 1", 1, "typos", Expected::Statement),
    ("  \tTypes 1", 4, "Types", Expected::Statement),
    ("types 1 65536", 9, "65536", Expected::TypeId),
    ("types 1 -1 x", 9, "-1", Expected::TypeId),
    ("types at", 7, "at", Expected::TypeId),
    (
        "types 99999999999999999999999",
        7,
        "99999999999999999999999",
        Expected::TypeId,
    ),
    ("block", 6, "", Expected::Name),
    ("block # start", 6, "", Expected::Name),
    ("block 1st", 7, "1st", Expected::Name),
    (
        "block a2345678901234567890123456789012x",
        7,
        "a2345678901234567890123456789012x",
        Expected::Name,
    ),
    ("block b 0 x", 11, "x", Expected::TypeHandle),
    (
        "block b 18446744073709551616",
        9,
        "18446744073709551616",
        Expected::TypeHandle,
    ),
];

static OPERATIONS: [Row; 16] = [
    ("op", 3, "", Expected::Name),
    ("op a", 5, "", Expected::Kind),
    ("op a branch", 6, "branch", Expected::Kind),
    ("op a 256", 6, "256", Expected::Kind),
    ("op a br at", 11, "", Expected::Location),
    ("op a br at 3", 12, "3", Expected::Location),
    (
        "op a br at 3:4294967296",
        12,
        "3:4294967296",
        Expected::Location,
    ),
    ("op a br results 0 b.0", 19, "b.0", Expected::TypeHandle),
    ("op a br operands b", 18, "b", Expected::Value),
    ("op a br operands b.0 b.", 22, "b.", Expected::Value),
    ("op a br successors b.0", 20, "b.0", Expected::Name),
    ("op a br regions two", 17, "two", Expected::Count),
    (
        "op a br operands b.0 results 0",
        22,
        "results",
        Expected::Section,
    ),
    (
        "op a br results 0 results 1",
        19,
        "results",
        Expected::Section,
    ),
    ("op a br regions 1 2", 19, "2", Expected::Section),
    ("op a br 3:4", 9, "3:4", Expected::Section),
];

static PLACES: [Row; 8] = [
    ("place", 6, "", Expected::Name),
    ("place a.0 in b", 7, "a.0", Expected::Name),
    ("place a on b", 9, "on", Expected::In),
    ("place a", 8, "", Expected::In),
    ("place a in", 11, "", Expected::Target),
    ("place a in b.c", 12, "b.c", Expected::Target),
    ("place a in 7", 12, "7", Expected::Target),
    ("place a in b c", 14, "c", Expected::EndOfLine),
];

fn refuses(rt: &impl Abort, heap: Global, row: &Row) -> Result<(), Fail> {
    let (text, column, found, expected) = *row;
    let line = text.as_bytes();
    match read_line(heap, line) {
        Err(ReadError::Malformed(problem)) => {
            assert_eq!(rt; problem.column(), column, "{}", text);
            assert_eq!(rt; problem.text(line), found.as_bytes(), "{}", text);
            assert_eq!(rt; problem.expected.phrase(), expected.phrase(), "{}", text);
            Ok(())
        }
        Err(ReadError::Memory) => Err(Fail::new("no memory")),
        Ok(_) => Err(Fail::new(text)),
    }
}

fn all_refused(rt: &impl Abort, heap: Global, rows: &[Row]) -> Result<(), Fail> {
    for row in rows {
        refuses(rt, heap, row)?;
    }
    Ok(())
}

#[test]
fn malformed_lines(rt: HostRuntime) -> Result<(), Fail> {
    all_refused(&rt, rt.alloc(), &STATEMENTS_AND_TYPES)?;
    all_refused(&rt, rt.alloc(), &OPERATIONS)?;
    all_refused(&rt, rt.alloc(), &PLACES)?;
    Ok(())
}
